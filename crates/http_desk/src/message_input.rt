//! Gathers a head, or a body, in a buffer.
ghost use Rattle.std.specs.Prelude.{◌≡◌, ◌+◌, ◌≤◌, length, take, unwrap_or};
ghost use Rattle.http_desk.specs.StreamFaults.{QuietHead, QuietBody, StepsAsCalled, head_failed, body_failed};
ghost use Rattle.http_desk.specs.MessageInput.{FindsHead, FindsBody, AtEndIfHead, AtEndIfBody, ReadsIntoBuffer};
ghost use Rattle.http_desk.specs.Messages.{longest_head};
ghost use Rattle.http_messages.specs.HeadScan.{scan};

use crate::input_buffer::{Filled, fill};
use crate::streams::Source;
use http_messages::head_scan::{HeadScanState, Scan, scan_on};
use http_messages::head_verdict::Head;
use std::io::Read;

/// How many bytes a head may have, with the empty lines before it.
pub const HEAD_LIMIT: usize = 16_384;

/// What was found at the front of the input.
#[derive(Clone, Copy, Debug, PartialEq, Eq, Drop)]
pub enum FoundHead {
    /// A head of this many bytes, with the empty lines before it.
    Whole(usize),
    /// No head ends within the limit.
    TooLong,
    /// The input has ended, and has only empty lines.
    Blank,
    /// The input has ended within a head.
    Cut,
    /// A read failed.
    Failed,
    /// The turns were used up.
    Bound,
    /// There was no memory.
    NoMemory,
}

/// How the reading of a body ended.
#[derive(Clone, Copy, Debug, PartialEq, Eq, Drop)]
pub enum FoundBody {
    /// It is whole.
    Whole,
    /// The input has ended within it.
    Cut,
    /// A read failed.
    Failed,
    /// The turns were used up.
    Bound,
    /// There was no memory.
    NoMemory,
}

/// How many bytes the body after this head has: 0 if the head gives no length.
pub fn body_len(head: Head) -> usize
    ensures { result ≡ unwrap_or head.length 0 }
{
    match head.length {
        None => 0,
        Some(n) => n as usize,
    }
}

/// Scans the bytes that were not seen yet, from the place to which those before them led. No byte is scanned twice.
fn look(buffer: &[u8], seen: usize, place: HeadScanState) -> Scan
    requires bytes { seen ≤ length buffer.now }
    requires limit { seen ≤ longest_head }
    requires led { scan (take seen buffer.now) ≡ Scan.Open place }
    ensures { result ≡ scan (take longest_head buffer.now) }
{
    let end = buffer.len().min(HEAD_LIMIT);
    match scan_on(place, &buffer[seen..end]) {
        Scan::Whole(size) => Scan::Whole(seen + size),
        Scan::Open(next) => Scan::Open(next),
    }
}

/// Reads into the buffer until it begins with a whole head, or until the result tells why none can be found. What was
/// read stays in the buffer.
pub fn gather_head<R: Read>(reader: &mut Source<'_, R>, buffer: &mut Vec<u8>) -> FoundHead
    ensures got { ReadsIntoBuffer reader.old.bytes reader.new.bytes buffer.old.items buffer.new.items }
    ensures found { FindsHead buffer.new.items result }
    ensures at_end { AtEndIfHead reader.new.bytes result }
    ensures calls { StepsAsCalled (head_failed result) (result ≡ FoundHead.Bound) (QuietHead result
        (reader.old.turns + length buffer.old.items) (reader.new.turns + length buffer.new.items))
        reader.old reader.new }
{
    let mut led = HeadScanState::Lead;
    let mut seen = 0;
    loop {
        match look(buffer, seen, led) {
            Scan::Whole(size) => return FoundHead::Whole(size),
            Scan::Open(place) => {
                if buffer.len() >= HEAD_LIMIT {
                    return FoundHead::TooLong;
                }
                led = place;
                seen = buffer.len();
                match fill(reader, buffer) {
                    Filled::More => {}
                    Filled::AtEnd => {
                        return match place {
                            HeadScanState::Lead => FoundHead::Blank,
                            _ => FoundHead::Cut,
                        };
                    }
                    Filled::Failed => return FoundHead::Failed,
                    Filled::Bound => return FoundHead::Bound,
                    Filled::NoMemory => return FoundHead::NoMemory,
                }
            }
        }
    }
}

/// Reads into the buffer until it has at least `end` bytes, those of the head included, or until the result tells why
/// it cannot. What was read stays in the buffer.
pub fn gather_body<R: Read>(
    reader: &mut Source<'_, R>,
    buffer: &mut Vec<u8>,
    end: usize,
) -> FoundBody
    ensures got { ReadsIntoBuffer reader.old.bytes reader.new.bytes buffer.old.items buffer.new.items }
    ensures found { FindsBody end buffer.new.items result }
    ensures at_end { AtEndIfBody reader.new.bytes result }
    ensures calls { StepsAsCalled (body_failed result) (result ≡ FoundBody.Bound)
        (QuietBody end result (reader.old.turns + length buffer.old.items)) reader.old reader.new }
{
    while buffer.len() < end {
        match fill(reader, buffer) {
            Filled::More => {}
            Filled::AtEnd => return FoundBody::Cut,
            Filled::Failed => return FoundBody::Failed,
            Filled::Bound => return FoundBody::Bound,
            Filled::NoMemory => return FoundBody::NoMemory,
        }
    }
    FoundBody::Whole
}
