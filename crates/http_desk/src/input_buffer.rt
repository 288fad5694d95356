//! Reads more bytes into a buffer, and takes messages from its front.
ghost use Rattle.std.specs.Prelude.{◌≡◌, ◌≢◌, ◌+◌, ◌<◌, ◌≤◌, Err, [], length, take, drop, IfOk, IfErr, OnOk};
ghost use Rattle.std.specs.Io.KnownBytes.{Consumes, IsAtEnd};
ghost use Rattle.http_desk.specs.MessageInput.{ReadsIntoBuffer};
ghost use Rattle.http_desk.specs.StreamFaults.{QuietRead, QuietFill, StepsAsCalled, once_failed, fill_failed};

use crate::streams::{Source, Undone};
use std::alloc::AllocError;
use std::io::Read;
use std::mem::replace;

/// How reading ended.
#[derive(Clone, Copy, Debug, PartialEq, Eq, Drop)]
pub enum Filled {
    /// At least one byte came.
    More,
    /// The input has ended.
    AtEnd,
    /// A read failed.
    Failed,
    /// The turns were used up.
    Bound,
    /// There was no memory for more bytes. No byte is lost.
    NoMemory,
}

const CHUNK: usize = 4096;

/// Reads once, and again if that was interrupted, in at most as many turns as are left.
fn read_once<R: Read>(reader: &mut Source<'_, R>, chunk: &mut [u8]) -> Result<usize, Filled>
    requires { 0 < length chunk.old }
    ensures within { IfOk result (λ n. n ≤ length chunk.new) }
    ensures bytes { IfOk result (λ n. Consumes reader.old.bytes reader.new.bytes (take n chunk.new)) }
    ensures at_end { IfOk result (λ n. n ≡ 0 → IsAtEnd reader.new.bytes) }
    ensures calls { StepsAsCalled (once_failed result) (result ≡ Err Filled.Bound)
        (QuietRead result reader.old.turns reader.new.turns) reader.old reader.new }
    ensures err { IfErr result (λ f. Consumes reader.old.bytes reader.new.bytes []
        × (f ≢ Filled.More) × (f ≢ Filled.AtEnd)) }
{
    while reader.has_turn() {
        match reader.read(chunk) {
            Ok(n) => return Ok(n),
            Err(Undone::Failed) => return Err(Filled::Failed),
            Err(Undone::Interrupted) => {}
        }
    }
    Err(Filled::Bound)
}

/// Reads once, and again if that was interrupted, in at most as many turns as are left, and adds the bytes to the end
/// of the buffer. Unless the result is `More`, the buffer stays the same.
pub fn fill<R: Read>(reader: &mut Source<'_, R>, buffer: &mut Vec<u8>) -> Filled
    ensures got { ReadsIntoBuffer reader.old.bytes reader.new.bytes buffer.old.items buffer.new.items }
    ensures same { result ≢ Filled.More → buffer.new.items ≡ buffer.old.items }
    ensures more { result ≡ Filled.More → length buffer.old.items < length buffer.new.items }
    ensures at_end { result ≡ Filled.AtEnd → IsAtEnd reader.new.bytes }
    ensures calls { StepsAsCalled (fill_failed result) (result ≡ Filled.Bound)
        (QuietFill result reader.old.turns reader.new.turns) reader.old reader.new }
{
    if buffer.reserve(CHUNK).is_err() {
        return Filled::NoMemory;
    }
    let mut chunk = [0u8; CHUNK];
    match read_once(reader, &mut chunk) {
        Ok(0) => Filled::AtEnd,
        Ok(n) => {
            let Ok(()) = buffer.extend_from_slice(&chunk[..n]) else {
                unreachable!()
            };
            Filled::More
        }
        Err(fault) => fault,
    }
}

/// Removes the first `n` bytes.
fn remove_front(buffer: &mut Vec<u8>, n: usize)
    requires { n ≤ length buffer.old.items }
    ensures { buffer.new.items ≡ drop n buffer.old.items }
{
    let len = buffer.len();
    buffer.as_mut_slice().copy_within(n..len, 0);
    buffer.truncate(len - n);
}

/// Takes a message from the front: a copy of its head, the first `size` bytes, and its body, the next `len` bytes,
/// which keeps the buffer's memory. The bytes after the message are left in the buffer. After an error the contract
/// does not say what is left in it.
pub fn take_message(
    buffer: &mut Vec<u8>,
    size: usize,
    len: usize,
) -> Result<(Vec<u8>, Vec<u8>), AllocError>
    requires { size + len ≤ length buffer.old.items }
    ensures head { IfOk result (λ message. message.0.items ≡ take size buffer.old.items) }
    ensures body { IfOk result (λ message. message.1.items ≡ take len (drop size buffer.old.items)) }
    ensures left { OnOk result (buffer.new.items ≡ drop (size + len) buffer.old.items) }
{
    let block = Vec::from_slice(*buffer.allocator(), &buffer[..size])?;
    let left = buffer.split_off(size + len)?;
    let mut body = replace(buffer, left);
    remove_front(&mut body, size);
    Ok((block, body))
}
