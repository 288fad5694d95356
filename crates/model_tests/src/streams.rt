//! An office, readers and writers for tests of sessions.

ghost use Rattle.std.specs.Prelude.{◌≡◌, ◌<◌, IfOk, Ok};
ghost use Rattle.office_core.specs.declared.done.Done.TheVariants as done;

use http_desk::session::talk;
use http_desk::session_end::Ended;
use http_desk::streams::{Sink, Source};
use isad_core::List;
use office_core::{Answer, Busy, Command, Done, Machine, Query, Reply};
use std::alloc::Global;
use std::cell::Cell;
use std::io::{self, ErrorKind, Read, Write};

/// How a session ended, and how the calls of its reader and writer went.
#[derive(Clone, Copy, Drop)]
pub struct Talked {
    pub ended: Ended,
    pub read_failed: bool,
    pub write_failed: bool,
    pub interrupted: bool,
    pub flushed: bool,
    pub reads: u64,
    pub writes: u64,
}

/// Runs a session over a reader and a writer that were not called yet.
pub fn talk_over<R: Read, W: Write, M: Machine>(
    alloc: Global,
    reader: &mut R,
    writer: &mut W,
    office: &mut M,
) -> Talked {
    let mut source = Source::new(reader);
    let mut sink = Sink::new(writer);
    let ended = talk(alloc, &mut source, &mut sink, office);
    Talked {
        ended,
        read_failed: source.has_failed(),
        write_failed: sink.has_failed(),
        interrupted: source.was_interrupted() || sink.was_interrupted(),
        flushed: sink.is_flushed(),
        reads: source.calls(),
        writes: sink.calls(),
    }
}

/// The reply to a registration that gave this ticket. Its bytes always say ticket 1.
fn registration(alloc: Global, ticket: u64) -> Result<Reply, Busy>
    ensures { IfOk result (λ reply. reply.done ≡ Ok (done.Register ticket)) }
{
    let Ok(json) = Vec::from_slice(alloc, b"{\"ticket\":1}") else {
        return Err(Busy::Memory);
    };
    Ok(Reply {
        done: Ok(Done::Register { ticket }),
        json: List(json),
    })
}

/// A list of one fonds.
fn one_fonds(alloc: Global) -> Result<Answer, Busy> {
    let Ok(text) = Vec::from_slice(alloc, b"1 GB 0999 HUL [Fonds] Hull Dock Company\n") else {
        return Err(Busy::Memory);
    };
    Ok(Answer::Text(List(text)))
}

/// A machine that shows one fonds and gives tickets.
#[derive(Drop)]
pub struct Counter {
    pub tickets: u64,
}

impl Machine for Counter {
    ghost represents = { λ office s. ⊥ };

    ghost is_intact = { λ office. Prim.Unit {0} };

    ghost is_open = { λ office. Prim.Unit {0} };

    ghost recovers = { λ office asked s. ⊥ };

    fn apply(&mut self, alloc: Global, _command: Command) -> Result<Reply, Busy> {
        self.tickets = self.tickets.wrapping_add(1);
        registration(alloc, self.tickets)
    }

    fn ask(&mut self, alloc: Global, _query: Query) -> Result<Answer, Busy> {
        one_fonds(alloc)
    }
}

/// A machine that notes how often it has answered. If it is refused memory, it has not.
#[derive(Drop)]
pub struct Noting {
    pub answers: u64,
}

impl Machine for Noting {
    ghost represents = { λ office s. ⊥ };

    ghost is_intact = { λ office. Prim.Unit {0} };

    ghost is_open = { λ office. Prim.Unit {0} };

    ghost recovers = { λ office asked s. ⊥ };

    fn apply(&mut self, alloc: Global, _command: Command) -> Result<Reply, Busy> {
        let reply = registration(alloc, 1)?;
        self.answers = self.answers.wrapping_add(1);
        Ok(reply)
    }

    fn ask(&mut self, alloc: Global, _query: Query) -> Result<Answer, Busy> {
        let answer = one_fonds(alloc)?;
        self.answers = self.answers.wrapping_add(1);
        Ok(answer)
    }
}

/// How reads or writes go on once all bytes are given, or no room is left.
#[derive(Clone, Copy, PartialEq, Eq, Drop)]
pub enum Then {
    Ends,
    Fails,
    Waits,
}

/// A reader that gives its bytes in pieces. A shy one is interrupted before each piece.
#[derive(Drop)]
pub struct Pieces<'a> {
    pub bytes: &'a [u8],
    pub piece: usize,
    pub then: Then,
    pub shy: bool,
    pub ready: bool,
    pub reads: u64,
}

impl<'a> Pieces<'a> {
    pub fn new(bytes: &'a [u8], piece: usize, then: Then) -> Pieces<'a> {
        Pieces {
            bytes,
            piece,
            then,
            shy: false,
            ready: false,
            reads: 0,
        }
    }
}

impl Read for Pieces<'_> {
    fn read(&mut self, buf: &mut [u8]) -> io::Result<usize> {
        self.reads = self.reads.wrapping_add(1);
        self.ready = !self.ready;
        if self.shy && self.ready {
            return Err(io::Error::from(ErrorKind::Interrupted));
        }
        if self.bytes.is_empty() {
            match self.then {
                Then::Ends => return Ok(0),
                Then::Fails => return Err(io::Error::from(ErrorKind::Other)),
                Then::Waits => return Err(io::Error::from(ErrorKind::Interrupted)),
            }
        }
        let n = self.piece.min(self.bytes.len()).min(buf.len());
        for i in 0..n {
            buf[i] = self.bytes[i];
        }
        self.bytes = &self.bytes[n..];
        Ok(n)
    }
}

/// A reader that gives one request again and again.
#[derive(Drop)]
pub struct Again<'a> {
    pub bytes: &'a [u8],
}

impl Read for Again<'_> {
    fn read(&mut self, buf: &mut [u8]) -> io::Result<usize> {
        let n = self.bytes.len().min(buf.len());
        for i in 0..n {
            buf[i] = self.bytes[i];
        }
        Ok(n)
    }
}

/// A writer that takes `room` bytes, in pieces.
#[derive(Drop)]
pub struct Narrow {
    pub held: Vec<u8>,
    pub room: usize,
    pub piece: usize,
    pub then: Then,
    pub calls: u64,
    pub flushes: u64,
    pub flushes_wait: bool,
}

impl Narrow {
    pub fn new(alloc: Global, room: usize, piece: usize, then: Then) -> Narrow {
        Narrow {
            held: Vec::new(alloc),
            room,
            piece,
            then,
            calls: 0,
            flushes: 0,
            flushes_wait: false,
        }
    }
}

impl Write for Narrow {
    fn write(&mut self, buf: &[u8]) -> io::Result<usize> {
        self.calls = self.calls.wrapping_add(1);
        if self.room == 0 {
            match self.then {
                Then::Ends => return Ok(0),
                Then::Fails => return Err(io::Error::from(ErrorKind::Other)),
                Then::Waits => return Err(io::Error::from(ErrorKind::Interrupted)),
            }
        }
        let n = buf.len().min(self.room).min(self.piece);
        self.held.extend_from_slice(&buf[..n])?;
        self.room -= n;
        Ok(n)
    }

    fn flush(&mut self) -> io::Result<()> {
        self.calls = self.calls.wrapping_add(1);
        self.flushes = self.flushes.wrapping_add(1);
        if self.flushes_wait {
            return Err(io::Error::from(ErrorKind::Interrupted));
        }
        Ok(())
    }
}

/// A writer that takes one byte at each write. The call with the number `once` is interrupted, and so are all from the
/// number `from` on.
#[derive(Drop)]
pub struct Disturbed {
    pub held: Vec<u8>,
    pub once: u64,
    pub from: u64,
    pub calls: u64,
}

impl Disturbed {
    pub fn new(alloc: Global, once: u64, from: u64) -> Disturbed {
        Disturbed {
            held: Vec::new(alloc),
            once,
            from,
            calls: 0,
        }
    }

    fn is_interrupted(&mut self) -> bool {
        self.calls = self.calls.wrapping_add(1);
        self.calls == self.once || self.calls >= self.from
    }
}

impl Write for Disturbed {
    fn write(&mut self, buf: &[u8]) -> io::Result<usize> {
        if self.is_interrupted() {
            return Err(io::Error::from(ErrorKind::Interrupted));
        }
        let n = buf.len().min(1);
        self.held.extend_from_slice(&buf[..n])?;
        Ok(n)
    }

    fn flush(&mut self) -> io::Result<()> {
        if self.is_interrupted() {
            return Err(io::Error::from(ErrorKind::Interrupted));
        }
        Ok(())
    }
}

/// A reader that gives its bytes in two parts.
#[derive(Drop)]
pub struct Halves<'a> {
    pub first: &'a [u8],
    pub second: &'a [u8],
}

impl Read for Halves<'_> {
    fn read(&mut self, buf: &mut [u8]) -> io::Result<usize> {
        if self.first.is_empty() {
            self.first = self.second;
            self.second = &[];
        }
        let n = self.first.len().min(buf.len());
        for i in 0..n {
            buf[i] = self.first[i];
        }
        self.first = &self.first[n..];
        Ok(n)
    }
}

/// A writer that keeps what is written, and asks for no memory.
#[derive(Drop)]
pub struct Fixed {
    pub bytes: [u8; 1024],
    pub len: usize,
}

impl Write for Fixed {
    fn write(&mut self, buf: &[u8]) -> io::Result<usize> {
        let room = self.bytes.len().saturating_sub(self.len);
        let n = buf.len().min(room);
        for i in 0..n {
            let at = self.len.saturating_add(i);
            if at < self.bytes.len() {
                self.bytes[at] = buf[i];
            }
        }
        self.len = self.len.saturating_add(n);
        Ok(n)
    }

    fn flush(&mut self) -> io::Result<()> {
        Ok(())
    }
}

/// A reader that gives a head, and then a body. It notes if the body is read before `leave` bytes were flushed.
#[derive(Drop)]
pub struct Waiting<'a> {
    pub head: &'a [u8],
    pub body: &'a [u8],
    pub flushed: &'a Cell<usize>,
    pub leave: usize,
    pub early: bool,
}

impl Read for Waiting<'_> {
    fn read(&mut self, buf: &mut [u8]) -> io::Result<usize> {
        if self.head.is_empty() {
            self.early = self.early || self.flushed.get() < self.leave;
            self.head = self.body;
            self.body = &[];
        }
        let n = self.head.len().min(buf.len());
        for i in 0..n {
            buf[i] = self.head[i];
        }
        self.head = &self.head[n..];
        Ok(n)
    }
}

/// A writer that records how many bytes were flushed. Its first flushes are interrupted.
#[derive(Drop)]
pub struct Telling<'a> {
    pub held: Vec<u8>,
    pub flushed: &'a Cell<usize>,
    pub shy: u32,
    pub writes: u64,
}

impl Write for Telling<'_> {
    fn write(&mut self, buf: &[u8]) -> io::Result<usize> {
        self.writes = self.writes.wrapping_add(1);
        self.held.extend_from_slice(buf)?;
        Ok(buf.len())
    }

    fn flush(&mut self) -> io::Result<()> {
        if self.shy > 0 {
            self.shy -= 1;
            return Err(io::Error::from(ErrorKind::Interrupted));
        }
        self.flushed.set(self.held.len());
        Ok(())
    }
}

/// A machine that answers with a text of `size` bytes.
#[derive(Drop)]
pub struct Long {
    pub size: usize,
}

impl Machine for Long {
    ghost represents = { λ office s. ⊥ };

    ghost is_intact = { λ office. Prim.Unit {0} };

    ghost is_open = { λ office. Prim.Unit {0} };

    ghost recovers = { λ office asked s. ⊥ };

    fn apply(&mut self, alloc: Global, _command: Command) -> Result<Reply, Busy> {
        registration(alloc, 1)
    }

    fn ask(&mut self, alloc: Global, _query: Query) -> Result<Answer, Busy> {
        let mut text = Vec::new(alloc);
        for _byte in 0..self.size {
            if text.push(b'x').is_err() {
                return Err(Busy::Memory);
            }
        }
        Ok(Answer::Text(List(text)))
    }
}

/// A machine that counts the commands of each kind.
#[derive(Drop)]
pub struct Tally {
    pub counts: [u64; 18],
}

fn kind_of(command: &Command) -> usize
    ensures { result < 18 }
{
    match command {
        Command::OpenDay { .. } => 0,
        Command::Import { .. } => 1,
        Command::SetStatus { .. } => 2,
        Command::SetClosure { .. } => 3,
        Command::Move { .. } => 4,
        Command::Remove { .. } => 5,
        Command::Register { .. } => 6,
        Command::Renew { .. } => 7,
        Command::TakeSeat { .. } => 8,
        Command::LeaveSeat { .. } => 9,
        Command::Order { .. } => 10,
        Command::Cancel { .. } => 11,
        Command::Run => 12,
        Command::Reshelve => 13,
        Command::Issue { .. } => 14,
        Command::Return { .. } => 15,
        Command::Permit { .. } => 16,
        Command::Revoke { .. } => 17,
    }
}

impl Machine for Tally {
    ghost represents = { λ office s. ⊥ };

    ghost is_intact = { λ office. Prim.Unit {0} };

    ghost is_open = { λ office. Prim.Unit {0} };

    ghost recovers = { λ office asked s. ⊥ };

    fn apply(&mut self, alloc: Global, command: Command) -> Result<Reply, Busy> {
        let kind = kind_of(&command);
        self.counts[kind] = self.counts[kind].wrapping_add(1);
        registration(alloc, 1)
    }

    fn ask(&mut self, alloc: Global, _query: Query) -> Result<Answer, Busy> {
        one_fonds(alloc)
    }
}
