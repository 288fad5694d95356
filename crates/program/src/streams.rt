//! Reads a stream to its end, and writes whole texts.
//!
//! At most 4294967295 reads are made of a whole stream. For one text, at most as many writes are made, and then at most
//! as many flushes, which are counted apart. An interrupted call counts and is tried again. If more calls would be
//! needed, the stream has failed. The contracts say that it fails no earlier; they do not say that no more calls are
//! made.
ghost use Rattle.std.specs.Prelude.{◌≡◌, ◌+◌, ◌++◌, ℕ, List, [], true, IfErr, IfOk, OnErr, OnOk, codes};
ghost use Rattle.std.specs.Io.KnownBytes.{Appends, Consumes, IsAtEnd};
ghost use Rattle.http_desk.specs.Streams.{most_calls};
ghost use Rattle.http_desk.specs.Session.{IsFront};
ghost use Rattle.program.specs.Streams.{HaveMade, Prints, PrintsPart, StreamFails};

use http_desk::streams::{Sink, Source, Undone};
use std::alloc::{AllocError, Global};
use std::io::{Read, Write};

/// Why a stream was not read to its end.
#[derive(Clone, Copy, Debug, PartialEq, Eq, Drop)]
pub enum ReadFault {
    /// There was no memory for its bytes.
    Memory,
    /// A read failed, or too many reads were needed.
    Failed,
}

impl From<AllocError> for ReadFault {
    ghost use Rattle.program.specs.declared.streams.ReadFault.TheVariants.{Memory};

    ghost from_gives = { λ _ e. e ≡ Memory };

    fn from(_: AllocError) -> ReadFault {
        ReadFault::Memory
    }
}

/// A write or a flush failed, a write took nothing, or too many calls were needed.
#[derive(Clone, Copy, Debug, PartialEq, Eq, Drop)]
pub struct WriteFault;

/// How many bytes one read asks for.
const CHUNK: usize = 65_536;

/// How many reads are made at most of a whole stream, how many writes at most for one text, and how many flushes at
/// most after these, counted apart: each is 4294967295.
pub fn most_calls() -> u32
    ensures { result ≡ most_calls }
{
    u32::MAX
}

/// Reads a stream to its end. If a read fails, or more than `most_calls` reads would be needed, the fault is `Failed`.
/// After a fault, a front of the stream was read and is lost.
pub fn read_to_end<R: Read>(alloc: Global, reader: &mut Source<'_, R>) -> Result<Vec<u8>, ReadFault>
    // The bytes are all that the reader had left.
    ensures bytes { IfOk result (λ v. Consumes reader.old.bytes reader.new.bytes v.items) }
    ensures end { OnOk result (IsAtEnd reader.new.bytes) }
    ensures good { OnOk result (reader.new.failed ≡ reader.old.failed) }
    // In any case, only a front of what the reader had left was read.
    ensures front { (gone : List ℕ) × Consumes reader.old.bytes reader.new.bytes gone }
    ensures fails { IfErr result (λ e. e ≡ ReadFault.Failed → StreamFails most_calls reader.old reader.new) }
{
    read_within(alloc, reader, most_calls())
}

/// Reads a stream to its end in at most `reads` reads. An interrupted read counts, and so does the one that finds the
/// end. If these do not suffice, or a read fails, the fault is `Failed`; a front of the stream was then read. Replaces
/// the turns that the reader had left, as `begin_stream` does. That no more reads are made is only tested.
pub fn read_within<R: Read>(
    alloc: Global,
    reader: &mut Source<'_, R>,
    reads: u32,
) -> Result<Vec<u8>, ReadFault>
    ensures bytes { IfOk result (λ v. Consumes reader.old.bytes reader.new.bytes v.items) }
    ensures end { OnOk result (IsAtEnd reader.new.bytes) }
    ensures good { OnOk result (reader.new.failed ≡ reader.old.failed) }
    ensures front { (gone : List ℕ) × Consumes reader.old.bytes reader.new.bytes gone }
    ensures fails { IfErr result (λ e. e ≡ ReadFault.Failed → StreamFails reads reader.old reader.new) }
{
    let mut bytes = Vec::new(alloc);
    let mut chunk = [0u8; CHUNK];
    reader.begin_stream();
    for _read in 0..reads {
        match reader.read(&mut chunk) {
            Ok(0) => return Ok(bytes),
            Ok(n) => bytes.extend_from_slice(&chunk[..n])?,
            Err(Undone::Failed) => return Err(ReadFault::Failed),
            Err(Undone::Interrupted) => {}
        }
    }
    Err(ReadFault::Failed)
}

/// Writes the bytes and flushes. Makes no call if there are no bytes. After a fault a front of them, or all, was
/// written.
pub fn write_whole<W: Write>(writer: &mut Sink<'_, W>, bytes: &[u8]) -> Result<(), WriteFault>
    ensures whole { OnOk result (Prints bytes.now writer.old writer.new) }
    ensures part { OnErr result (PrintsPart bytes.now writer.old writer.new) }
{
    if bytes.is_empty() {
        return Ok(());
    }
    write_within(writer, bytes, most_calls())?;
    flush(writer)
}

/// Writes the bytes and a line feed, whose writes are counted together, and flushes. After a fault a front of this
/// text, or all of it, was written.
pub fn write_line<W: Write>(writer: &mut Sink<'_, W>, bytes: &[u8]) -> Result<(), WriteFault>
    ensures whole { OnOk result (Prints (bytes.now ++ codes "\n") writer.old writer.new) }
    ensures part { OnErr result (PrintsPart (bytes.now ++ codes "\n") writer.old writer.new) }
{
    line_within(writer, bytes, most_calls())?;
    flush(writer)
}

/// Writes the bytes and a line feed in at most `writes` writes in all, without a flush. An interrupted write counts.
/// After a fault a front of this text was written. The contract does not say that no more writes are made.
pub fn line_within<W: Write>(
    writer: &mut Sink<'_, W>,
    bytes: &[u8],
    writes: u32,
) -> Result<(), WriteFault>
    ensures whole { OnOk result (Appends writer.old.bytes writer.new.bytes (bytes.now ++ codes "\n")) }
    ensures good { OnOk result (writer.new.failed ≡ writer.old.failed) }
    ensures front { (written : List ℕ) × IsFront written (bytes.now ++ codes "\n")
        × Appends writer.old.bytes writer.new.bytes written }
    ensures fails { OnErr result (StreamFails writes writer.old writer.new) }
    ensures made { HaveMade 0 writer.old writer.new }
{
    let left = write_within(writer, bytes, writes)?;
    write_within(writer, b"\n", left)?;
    Ok(())
}

/// Writes the bytes in at most `writes` writes, without a flush, and returns how many of these are left. An interrupted
/// write counts. After a fault a front of the bytes was written. The contract does not say that no more writes are
/// made.
pub fn write_within<W: Write>(
    writer: &mut Sink<'_, W>,
    bytes: &[u8],
    writes: u32,
) -> Result<u32, WriteFault>
    ensures whole { OnOk result (Appends writer.old.bytes writer.new.bytes bytes.now) }
    ensures good { OnOk result (writer.new.failed ≡ writer.old.failed) }
    ensures left { IfOk result (λ left. (made : ℕ) × (made + left ≡ writes) × HaveMade made writer.old writer.new) }
    ensures front { (written : List ℕ) × IsFront written bytes.now
        × Appends writer.old.bytes writer.new.bytes written }
    ensures fails { OnErr result (StreamFails writes writer.old writer.new) }
    ensures made { HaveMade 0 writer.old writer.new }
{
    let mut rest = bytes;
    writer.begin_stream();
    for write in 0..writes {
        if rest.is_empty() {
            return Ok(writes - write);
        }
        match writer.write(rest) {
            Ok(n) => rest = &rest[n..],
            Err(Undone::Failed) => return Err(WriteFault),
            Err(Undone::Interrupted) => {}
        }
    }
    if rest.is_empty() {
        Ok(0)
    } else {
        Err(WriteFault)
    }
}

/// Flushes what was written.
fn flush<W: Write>(writer: &mut Sink<'_, W>) -> Result<(), WriteFault>
    ensures nothing { Appends writer.old.bytes writer.new.bytes [] }
    ensures flushed { OnOk result (writer.new.flushed ≡ true) }
    ensures good { OnOk result (writer.new.failed ≡ writer.old.failed) }
    ensures fails { OnErr result (StreamFails most_calls writer.old writer.new) }
{
    writer.begin_stream();
    for _flush in 0..most_calls() {
        match writer.flush() {
            Ok(()) => return Ok(()),
            Err(Undone::Failed) => return Err(WriteFault),
            Err(Undone::Interrupted) => {}
        }
    }
    Err(WriteFault)
}
