//! A disk in memory. A trial keeps its office there.
//!
//! What was written stands at once, and nothing outlives the program. So a sync has nothing to do, and no digest is
//! needed to see that a read is right.
#![tactic(auto)]

ghost use Rattle.std.specs.Prelude.{◌≡◌, [], length, true, false, refl, is_ok, OnOk};
ghost use Rattle.sqlite_disk.specs.Disk.{Holds, Torn, Cut, CountsFault};
ghost use Rattle.sqlite_disk.specs.Refusal.{finds_no_room};

use sqlite_disk::{Disk, Tally};
use std::alloc::{AllocError, Global};
use std::io;

/// A file in memory. It returns what was written. A write, or a change of the length, fails only for want of memory,
/// and a read only if it goes past the end.
#[derive(Drop)]
pub struct MemoryDisk {
    bytes: Vec<u8>,
    faults: u64,
}

impl MemoryDisk {
    /// An empty file.
    pub fn new(alloc: Global) -> MemoryDisk
        ensures { ⟦<MemoryDisk as Disk>⟧.seen result ≡ [] }
    {
        MemoryDisk {
            bytes: Vec::new(alloc),
            faults: 0,
        }
    }
}

impl Disk for MemoryDisk {
    ghost seen = { λ disk. disk.bytes.items };

    ghost may_leave = { λ disk left. left ≡ disk.bytes.items };

    ghost is_usable = { λ _. true };

    ghost faults = { λ disk. disk.faults };

    ghost is_clean = { λ _. true };

    ghost tally_of = { λ _. record { caught = 0; refused = 0 } };

    ghost key_of = { λ _. 0 };

    ghost is_fair = { λ _ _. true };

    ghost fair_if_clean = { λ _ _ _. refl };

    ghost seen_may_stay = { λ _. refl };

    fn mixes(&self) -> bool {
        false
    }

    fn key(&self) -> u64 {
        0
    }

    fn tally(&self) -> Tally {
        Tally {
            caught: 0,
            refused: 0,
        }
    }

    fn may_be_used(&self) -> bool {
        true
    }

    fn len(&mut self) -> io::Result<usize> {
        Ok(self.bytes.len())
    }

    fn read_at(&mut self, at: usize, buf: &mut [u8]) -> io::Result<()> {
        if at > self.bytes.len() || buf.len() > self.bytes.len() - at {
            return Err(io::ErrorKind::UnexpectedEof.into());
        }
        buf.copy_from_slice(&self.bytes[at..at + buf.len()]);
        Ok(())
    }

    /// The bytes are those that were written, so they have the digest that the caller kept.
    fn read_checked(&mut self, _key: u64, _want: u64, at: usize, buf: &mut [u8]) -> io::Result<()> {
        self.read_at(at, buf)
    }

    fn write_at(&mut self, at: usize, bytes: &[u8]) -> io::Result<()> {
        let done = overwrite(&mut self.bytes, at, bytes);
        count(done, &mut self.faults)
    }

    fn set_len(&mut self, len: usize) -> io::Result<()> {
        let done = resize(&mut self.bytes, len);
        count(done, &mut self.faults)
    }

    fn sync(&mut self) -> io::Result<()> {
        Ok(())
    }
}

/// Counts a call that found no memory.
fn count(outcome: Result<(), AllocError>, faults: &mut u64) -> io::Result<()>
    ensures variant { is_ok result ≡ is_ok outcome }
    ensures kind { finds_no_room result ≡ false }
    ensures faults { CountsFault result faults.old faults.new }
{
    if outcome.is_err() {
        *faults = faults.saturating_add(1);
        return Err(io::ErrorKind::OutOfMemory.into());
    }
    Ok(())
}

/// Makes a file longer, by zeros, or shorter.
fn resize(file: &mut Vec<u8>, len: usize) -> Result<(), AllocError>
    ensures len { OnOk result (length file.new.items ≡ len) }
    ensures others { Cut len file.old.items file.new.items }
{
    file.resize(len, 0)
}

/// Writes into a file, and makes it longer where the bytes end behind it.
fn overwrite(file: &mut Vec<u8>, at: usize, bytes: &[u8]) -> Result<(), AllocError>
    ensures written { OnOk result (Holds file.new.items at bytes.now) }
    ensures others { Torn at (length bytes.now) file.old.items file.new.items }
{
    let end = at.checked_add(bytes.len()).ok_or(AllocError)?;
    if end > file.len() {
        resize(file, end)?;
    }
    file[at..end].copy_from_slice(bytes);
    Ok(())
}
