//! Writes whole answers, in few writes. Nothing here takes an allocator.
ghost use Rattle.std.specs.Prelude.{◌≡◌, ◌≢◌, ◌+◌, ◌<◌, ◌≤◌, ◌^◌, ℕ, List, [], ◌++◌, length};
ghost use Rattle.std.specs.Prelude.{true, false};
ghost use Rattle.http_desk.specs.AnswerOutput.{SendsAsCalled};
ghost use Rattle.http_desk.specs.StreamFaults.{QuietSend, StepsAsCalled, send_failed};
ghost use Rattle.std.specs.List.{flat_map};
ghost use Rattle.std.specs.Io.KnownBytes.{Appends};
ghost use Rattle.http_desk.specs.Session.{IsFront};
ghost use Rattle.http_desk.specs.Streams.{more_writes};

use crate::streams::{Sink, Undone};
use arrayvec::ArrayVec;
use std::io::Write;

/// How writing ended.
#[derive(Clone, Copy, Debug, PartialEq, Eq, Drop)]
pub enum Sent {
    /// All bytes were written and flushed.
    All,
    /// A write or a flush failed, or a write took nothing. A front of the bytes, or all, was written.
    Failed,
    /// The turns were used up. A front of the bytes, or all, was written.
    Bound,
}

/// How many bytes of short pieces are gathered for one write.
const LOT: usize = 2048;

/// Writes the bytes, in at most as many turns as are left.
fn send_piece<W: Write>(writer: &mut Sink<'_, W>, piece: &[u8]) -> Sent
    ensures all { result ≡ Sent.All → Appends writer.old.bytes writer.new.bytes piece.now }
    ensures front { (written : List ℕ) × IsFront written piece.now
        × Appends writer.old.bytes writer.new.bytes written }
    ensures calls { StepsAsCalled (send_failed result) (result ≡ Sent.Bound)
        (QuietSend result writer.old.turns writer.new.turns (length piece.now)) writer.old writer.new }
{
    let mut rest = piece;
    while !rest.is_empty() {
        if !writer.has_turn() {
            return Sent::Bound;
        }
        match writer.write(rest) {
            Ok(n) => rest = &rest[n..],
            Err(Undone::Failed) => return Sent::Failed,
            Err(Undone::Interrupted) => {}
        }
    }
    Sent::All
}

/// Flushes, in at most as many turns as are left.
fn flush<W: Write>(writer: &mut Sink<'_, W>) -> Sent
    ensures nothing { Appends writer.old.bytes writer.new.bytes [] }
    ensures flushed { result ≡ Sent.All → writer.new.flushed ≡ true }
    ensures calls { StepsAsCalled (send_failed result) (result ≡ Sent.Bound)
        (0 < writer.old.turns → result ≢ Sent.Bound) writer.old writer.new }
{
    while writer.has_turn() {
        match writer.flush() {
            Ok(()) => return Sent::All,
            Err(Undone::Failed) => return Sent::Failed,
            Err(Undone::Interrupted) => {}
        }
    }
    Sent::Bound
}

/// How many bytes the pieces have in all.
fn length_of(pieces: &[&[u8]]) -> u64
    requires { length (flat_map (λ p. p.now) pieces.now) < 2 ^ 64 }
    ensures { result ≡ length (flat_map (λ p. p.now) pieces.now) }
{
    let mut length = 0;
    for piece in pieces {
        length += piece.len() as u64;
    }
    length
}

/// Gathers a piece. If there is no room for it, writes what was gathered, and then the piece.
fn gather_or_send<W: Write>(
    writer: &mut Sink<'_, W>,
    lot: &mut ArrayVec<u8, LOT>,
    piece: &[u8],
) -> Sent
    ensures all { result ≡ Sent.All → (written : List ℕ) × (lot.old.items ++ piece.now ≡ written ++ lot.new.items)
        × Appends writer.old.bytes writer.new.bytes written
        × (writer.new.interrupted ≡ false → writer.old.turns ≤ writer.new.turns + length written) }
    ensures front { (written : List ℕ) × IsFront written (lot.old.items ++ piece.now)
        × Appends writer.old.bytes writer.new.bytes written }
    ensures calls { StepsAsCalled (send_failed result) (result ≡ Sent.Bound) (QuietSend result
        writer.old.turns writer.new.turns (length lot.old.items + length piece.now)) writer.old writer.new }
{
    match lot.try_extend_from_slice(piece) {
        Ok(()) => Sent::All,
        Err(_) => match send_piece(writer, lot.as_slice()) {
            Sent::All => {
                lot.clear();
                send_piece(writer, piece)
            }
            fault => fault,
        },
    }
}

/// Writes the pieces one after the other and flushes, in at most one turn for each byte and 16 more: a turn is one
/// write or flush, and an interrupted one counts. Pieces that fit into one lot are written together. The sum of all
/// bytes and 16 must be below 2^64.
pub fn send<W: Write>(writer: &mut Sink<'_, W>, pieces: &[&[u8]]) -> Sent
    requires { length (flat_map (λ p. p.now) pieces.now) + more_writes < 2 ^ 64 }
    ensures { SendsAsCalled (flat_map (λ p. p.now) pieces.now) writer.old writer.new result }
{
    writer.begin_text(length_of(pieces));
    let mut lot = ArrayVec::new();
    for piece in pieces {
        match gather_or_send(writer, &mut lot, piece) {
            Sent::All => {}
            fault => return fault,
        }
    }
    match send_piece(writer, lot.as_slice()) {
        Sent::All => flush(writer),
        fault => fault,
    }
}
