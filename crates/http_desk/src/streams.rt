//! A reader and a writer, with a record of how their calls went. Nothing here takes an allocator.
ghost use Rattle.std.specs.Prelude.{◌≡◌, ◌≢◌, ◌+◌, ◌<◌, ◌≤◌, ◌||◌, ◌^◌, [], length, take, nat_lt, IfOk, OnErr};
ghost use Rattle.std.specs.Io.KnownBytes.{Appends, ReadConsumes};
ghost use Rattle.std.specs.Io.{ReadsAtMost};
ghost use Rattle.http_desk.specs.Streams.{IsUncalled, after_flush, after_write, calls_of, has_failed, most_calls};
ghost use Rattle.http_desk.specs.Streams.{more_writes, most_reads, one_more_call, was_interrupted};

use crate::message_input::HEAD_LIMIT;
use http_messages::head_verdict::LONGEST;
use std::io::{ErrorKind, Read, Write};
use std::marker::Model;

/// Why a call did nothing.
#[derive(Clone, Copy, Debug, PartialEq, Eq, Drop)]
pub enum Undone {
    /// It failed, or it was a write that took nothing.
    Failed,
    /// It was interrupted.
    Interrupted,
}

/// How the calls of a reader or a writer went.
#[derive(Clone, Copy, Debug, Drop)]
pub struct Calls {
    /// A call has failed, or a write has taken nothing.
    pub failed: bool,
    /// A call was interrupted.
    pub interrupted: bool,
    /// So many were made. The count stops at 2^64 - 1.
    pub made: u64,
    /// So many might be made for the last message, or for the last text, in all.
    pub given: u64,
    /// So many of them were left.
    pub turns: u64,
    /// All that was written was flushed, as of a reader, which writes nothing.
    pub flushed: bool,
}

/// How many reads a message may take: one for each byte of the longest message, and one more.
const READS: u32 = HEAD_LIMIT as u32 + LONGEST as u32 + 1;

/// How many writes and flushes a text may take in addition to one for each byte.
const MORE_WRITES: u64 = 16;

/// How many reads a stream may take that is read to its end, and how many writes a text that is no answer.
const CALLS: u32 = u32::MAX;

/// A reader, with a record of its calls. While it is borrowed here, nothing else can call it.
#[derive(Drop)]
pub struct Source<'a, R: Read> {
    reader: &'a mut R,
    failed: bool,
    interrupted: bool,
    calls: u64,
    given: u32,
    turns: u32,
}

impl<'a, R: Read> Model for Source<'a, R> {
    ghost use Rattle.std.specs.Prelude.{true};
    ghost use Rattle.http_desk.specs.Streams.{Stream};

    ghost Value = { Stream };

    ghost view = { λ s. record {
      name = s.reader.ghost_name;
      bytes = R.remaining s.reader.now;
      failed = s.failed;
      interrupted = s.interrupted;
      calls = s.calls;
      given = s.given;
      turns = s.turns;
      flushed = true;
    } };
}

impl<'a, R: Read> Source<'a, R> {
    /// A reader that has not been called yet.
    pub fn new(reader: &'a mut R) -> Source<'a, R>
        ensures same { result.name ≡ reader.entry.ghost_name }
        ensures bytes { result.bytes ≡ R.remaining reader.old }
        ensures uncalled { IsUncalled result }
    {
        Source {
            reader,
            failed: false,
            interrupted: false,
            calls: 0,
            given: 0,
            turns: 0,
        }
    }

    /// Returns the reader.
    pub fn into_reader(self) -> &'a mut R
        ensures same { result.ghost_name ≡ self.entry.name }
        ensures bytes { R.remaining result.now ≡ self.entry.bytes }
    {
        let Source { reader, .. } = self;
        reader
    }

    /// Allows the turns of one message, in place of those that are left: one for each byte of the longest head and of
    /// the longest body, and one more.
    pub fn begin_message(&mut self)
        ensures { self.new ≡ record self.old { given = most_reads; turns = most_reads } }
    {
        self.given = READS;
        self.turns = READS;
    }

    /// Allows the turns of a stream that is read to its end, in place of those that are left: 4294967295.
    pub fn begin_stream(&mut self)
        ensures { self.new ≡ record self.old { given = most_calls; turns = most_calls } }
    {
        self.given = CALLS;
        self.turns = CALLS;
    }

    /// Whether a turn is left: one more read may be made of this message, or of the stream.
    pub fn has_turn(&self) -> bool
        ensures { result ≡ nat_lt 0 self.now.turns }
    {
        self.turns > 0
    }

    /// Whether a read has failed.
    pub fn has_failed(&self) -> bool
        ensures { result ≡ self.now.failed }
    {
        self.failed
    }

    /// Whether a read was interrupted.
    pub fn was_interrupted(&self) -> bool
        ensures { result ≡ self.now.interrupted }
    {
        self.interrupted
    }

    /// How the reads went.
    pub fn told(&self) -> Calls
        ensures { result ≡ calls_of self.now }
    {
        Calls {
            failed: self.failed,
            interrupted: self.interrupted,
            made: self.calls,
            given: self.given as u64,
            turns: self.turns as u64,
            flushed: true,
        }
    }

    /// How many reads were made, interrupted ones too. The count stops at 2^64 - 1.
    pub fn calls(&self) -> u64
        ensures { result ≡ self.now.calls }
    {
        self.calls
    }

    /// One read, which takes a turn, of which one must be left. The bytes go to the front of `chunk`, which must not be
    /// empty: 0 bytes mean that the input has ended. An `Err` reads nothing.
    pub fn read(&mut self, chunk: &mut [u8]) -> Result<usize, Undone>
        requires turn { 0 < self.old.turns }
        requires room { 0 < length chunk.old }
        ensures within { ReadsAtMost result chunk.new }
        ensures bytes { ReadConsumes self.old.bytes self.new.bytes result chunk.new }
        ensures same { self.new.name ≡ self.old.name }
        ensures failed { self.new.failed ≡ (has_failed result || self.old.failed) }
        ensures interrupted { self.new.interrupted ≡ (was_interrupted result || self.old.interrupted) }
        ensures calls { self.new.calls ≡ one_more_call self.old.calls }
        ensures given { self.new.given ≡ self.old.given }
        ensures turns { self.new.turns + 1 ≡ self.old.turns }
    {
        self.turns -= 1;
        self.calls = self.calls.saturating_add(1);
        match self.reader.read(chunk) {
            Ok(n) => Ok(n),
            Err(e) => {
                if e.kind() == ErrorKind::Interrupted {
                    self.interrupted = true;
                    Err(Undone::Interrupted)
                } else {
                    self.failed = true;
                    Err(Undone::Failed)
                }
            }
        }
    }
}

/// A writer, with a record of its calls. While it is borrowed here, nothing else can call it.
#[derive(Drop)]
pub struct Sink<'a, W: Write> {
    writer: &'a mut W,
    failed: bool,
    interrupted: bool,
    calls: u64,
    given: u64,
    turns: u64,
    flushed: bool,
}

impl<'a, W: Write> Model for Sink<'a, W> {
    ghost use Rattle.http_desk.specs.Streams.{Stream};

    ghost Value = { Stream };

    ghost view = { λ s. record {
      name = s.writer.ghost_name;
      bytes = W.contents s.writer.now;
      failed = s.failed;
      interrupted = s.interrupted;
      calls = s.calls;
      given = s.given;
      turns = s.turns;
      flushed = s.flushed;
    } };
}

impl<'a, W: Write> Sink<'a, W> {
    /// A writer that has not been called yet.
    pub fn new(writer: &'a mut W) -> Sink<'a, W>
        ensures same { result.name ≡ writer.entry.ghost_name }
        ensures bytes { result.bytes ≡ W.contents writer.old }
        ensures uncalled { IsUncalled result }
    {
        Sink {
            writer,
            failed: false,
            interrupted: false,
            calls: 0,
            given: 0,
            turns: 0,
            flushed: true,
        }
    }

    /// Returns the writer.
    pub fn into_writer(self) -> &'a mut W
        ensures same { result.ghost_name ≡ self.entry.name }
        ensures bytes { W.contents result.now ≡ self.entry.bytes }
    {
        let Sink { writer, .. } = self;
        writer
    }

    /// Allows the turns of a text of `len` bytes, in place of those that are left: one for each byte, and 16 more.
    pub fn begin_text(&mut self, len: u64)
        requires { len + more_writes < 2 ^ 64 }
        ensures { self.new ≡ record self.old { given = len + more_writes; turns = len + more_writes } }
    {
        self.given = len + MORE_WRITES;
        self.turns = len + MORE_WRITES;
    }

    /// Allows the turns of a text that is no answer, or those of its flush, in place of those that are left:
    /// 4294967295.
    pub fn begin_stream(&mut self)
        ensures { self.new ≡ record self.old { given = most_calls; turns = most_calls } }
    {
        self.given = CALLS as u64;
        self.turns = CALLS as u64;
    }

    /// Whether a turn is left: one more write or flush may be made for this text.
    pub fn has_turn(&self) -> bool
        ensures { result ≡ nat_lt 0 self.now.turns }
    {
        self.turns > 0
    }

    /// Whether a write or a flush has failed, or a write has taken nothing.
    pub fn has_failed(&self) -> bool
        ensures { result ≡ self.now.failed }
    {
        self.failed
    }

    /// Whether a write or a flush was interrupted.
    pub fn was_interrupted(&self) -> bool
        ensures { result ≡ self.now.interrupted }
    {
        self.interrupted
    }

    /// Whether all that was written was flushed. That is so if nothing was written yet.
    pub fn is_flushed(&self) -> bool
        ensures { result ≡ self.now.flushed }
    {
        self.flushed
    }

    /// How the writes and flushes went.
    pub fn told(&self) -> Calls
        ensures { result ≡ calls_of self.now }
    {
        Calls {
            failed: self.failed,
            interrupted: self.interrupted,
            made: self.calls,
            given: self.given,
            turns: self.turns,
            flushed: self.flushed,
        }
    }

    /// How many writes and flushes were made, interrupted ones too. The count stops at 2^64 - 1.
    pub fn calls(&self) -> u64
        ensures { result ≡ self.now.calls }
    {
        self.calls
    }

    /// One write, which takes a turn, of which one must be left. Returns how many bytes from the front of `piece`,
    /// which must not be empty, it took. One that took none has failed. An `Err` writes nothing.
    pub fn write(&mut self, piece: &[u8]) -> Result<usize, Undone>
        requires turn { 0 < self.old.turns }
        requires some { 0 < length piece.now }
        ensures took { IfOk result (λ n. (n ≢ 0) × (n ≤ length piece.now)
            × Appends self.old.bytes self.new.bytes (take n piece.now)) }
        ensures nothing { OnErr result (Appends self.old.bytes self.new.bytes []) }
        ensures same { self.new.name ≡ self.old.name }
        ensures flushed { self.new.flushed ≡ after_write self.old.flushed result }
        ensures failed { self.new.failed ≡ (has_failed result || self.old.failed) }
        ensures interrupted { self.new.interrupted ≡ (was_interrupted result || self.old.interrupted) }
        ensures calls { self.new.calls ≡ one_more_call self.old.calls }
        ensures given { self.new.given ≡ self.old.given }
        ensures turns { self.new.turns + 1 ≡ self.old.turns }
    {
        self.turns -= 1;
        self.calls = self.calls.saturating_add(1);
        match self.writer.write(piece) {
            Ok(0) => {
                self.failed = true;
                Err(Undone::Failed)
            }
            Ok(n) => {
                self.flushed = false;
                Ok(n)
            }
            Err(e) => {
                if e.kind() == ErrorKind::Interrupted {
                    self.interrupted = true;
                    Err(Undone::Interrupted)
                } else {
                    self.failed = true;
                    Err(Undone::Failed)
                }
            }
        }
    }

    /// One flush, which takes a turn, of which one must be left.
    pub fn flush(&mut self) -> Result<(), Undone>
        requires { 0 < self.old.turns }
        ensures nothing { Appends self.old.bytes self.new.bytes [] }
        ensures same { self.new.name ≡ self.old.name }
        ensures flushed { self.new.flushed ≡ after_flush self.old.flushed result }
        ensures failed { self.new.failed ≡ (has_failed result || self.old.failed) }
        ensures interrupted { self.new.interrupted ≡ (was_interrupted result || self.old.interrupted) }
        ensures calls { self.new.calls ≡ one_more_call self.old.calls }
        ensures given { self.new.given ≡ self.old.given }
        ensures turns { self.new.turns + 1 ≡ self.old.turns }
    {
        self.turns -= 1;
        self.calls = self.calls.saturating_add(1);
        match self.writer.flush() {
            Ok(()) => {
                self.flushed = true;
                Ok(())
            }
            Err(e) => {
                if e.kind() == ErrorKind::Interrupted {
                    self.interrupted = true;
                    Err(Undone::Interrupted)
                } else {
                    self.failed = true;
                    Err(Undone::Failed)
                }
            }
        }
    }
}
