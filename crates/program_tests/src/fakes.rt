//! Streams for tests: they give and take bytes in pieces, are interrupted, and fail where a test asks for it.
ghost use Rattle.std.specs.Prelude.{IsErr};

use http_desk::session_end::Ended;
use http_desk::streams::Calls;
use program::ports::Port;
use std::io::{self, ErrorKind, PipeWriter, Read, Write};

fn broken<T>() -> io::Result<T>
    ensures { IsErr result }
{
    Err(io::Error::from(ErrorKind::Other))
}

fn interruption<T>() -> io::Result<T>
    ensures { IsErr result }
{
    Err(io::Error::from(ErrorKind::Interrupted))
}

/// A reader that gives its bytes in pieces of at most `piece` bytes, each after an interruption if `interrupts` is
/// true. Then it is at its end, or fails if `fails` is true.
#[derive(Drop)]
pub struct Pieces<'a> {
    bytes: &'a [u8],
    piece: usize,
    interrupts: bool,
    is_ready: bool,
    fails: bool,
}

impl<'a> Pieces<'a> {
    /// Gives as much as it can at once, and is then at its end.
    pub fn of(bytes: &'a [u8]) -> Pieces<'a> {
        Pieces {
            bytes,
            piece: usize::MAX,
            interrupts: false,
            is_ready: false,
            fails: false,
        }
    }

    /// Gives pieces of at most this length, each after an interruption.
    pub fn interrupted(bytes: &'a [u8], piece: usize) -> Pieces<'a> {
        Pieces {
            piece,
            interrupts: true,
            ..Pieces::of(bytes)
        }
    }

    /// Fails after the bytes.
    pub fn failing(bytes: &'a [u8]) -> Pieces<'a> {
        Pieces {
            fails: true,
            ..Pieces::of(bytes)
        }
    }
}

impl Read for Pieces<'_> {
    fn read(&mut self, buf: &mut [u8]) -> io::Result<usize> {
        if self.interrupts && !self.is_ready {
            self.is_ready = true;
            return interruption();
        }
        self.is_ready = false;
        if self.bytes.is_empty() && self.fails {
            return broken();
        }
        let n = self.piece.min(self.bytes.len()).min(buf.len());
        for i in 0..n {
            buf[i] = self.bytes[i];
        }
        self.bytes = &self.bytes[n..];
        Ok(n)
    }
}

/// A writer that takes `room` bytes in pieces of at most `piece` bytes, each after an interruption if `interrupts` is
/// true, and then fails. It fails to flush if `holds_back` is true.
#[derive(Drop)]
pub struct Page {
    pub held: Vec<u8>,
    room: usize,
    piece: usize,
    interrupts: bool,
    is_ready: bool,
    holds_back: bool,
}

impl Page {
    /// Takes all bytes.
    pub fn new(held: Vec<u8>) -> Page {
        Page {
            held,
            room: usize::MAX,
            piece: usize::MAX,
            interrupts: false,
            is_ready: false,
            holds_back: false,
        }
    }

    /// Takes all bytes, and fails to flush them.
    pub fn unflushed(held: Vec<u8>) -> Page {
        Page {
            holds_back: true,
            ..Page::new(held)
        }
    }

    /// Takes `room` bytes, and then fails.
    pub fn narrow(held: Vec<u8>, room: usize) -> Page {
        Page {
            room,
            ..Page::new(held)
        }
    }

    /// Takes pieces of at most this length.
    pub fn in_pieces(held: Vec<u8>, piece: usize) -> Page {
        Page {
            piece,
            ..Page::new(held)
        }
    }

    /// Takes pieces of at most this length, each after an interruption.
    pub fn interrupted(held: Vec<u8>, piece: usize) -> Page {
        Page {
            piece,
            interrupts: true,
            ..Page::new(held)
        }
    }
}

impl Write for Page {
    fn write(&mut self, buf: &[u8]) -> io::Result<usize> {
        if self.interrupts && !self.is_ready {
            self.is_ready = true;
            return interruption();
        }
        self.is_ready = false;
        if self.room == 0 {
            return broken();
        }
        let n = buf.len().min(self.piece).min(self.room);
        self.held.extend_from_slice(&buf[..n])?;
        self.room -= n;
        Ok(n)
    }

    fn flush(&mut self) -> io::Result<()> {
        if self.interrupts && !self.is_ready {
            self.is_ready = true;
            return interruption();
        }
        self.is_ready = false;
        if self.holds_back { broken() } else { Ok(()) }
    }
}

/// A port with a queue of clients, each with the text that it sends. The answers to all clients go to one pipe, with a
/// bar after each client. It notes the number that it was bound to, and counts the clients that were taken and left.
/// Once it is shut, none can be taken.
#[derive(Drop)]
pub struct Queue<'a> {
    clients: &'a [&'a str],
    line: PipeWriter,
    binds: bool,
    pub number: Option<u16>,
    pub taken: usize,
    pub left: usize,
    pub is_shut: bool,
}

impl<'a> Queue<'a> {
    /// No client has been served yet.
    pub fn of(clients: &'a [&'a str], line: PipeWriter) -> Queue<'a> {
        Queue {
            clients,
            line,
            binds: true,
            number: None,
            taken: 0,
            left: 0,
            is_shut: false,
        }
    }

    /// Nobody comes.
    pub fn empty(rt: &HostRuntime) -> io::Result<Queue<'static>> {
        let (_line, end) = io::pipe(rt)?;
        Ok(Queue::of(&[], end))
    }

    /// It cannot be bound.
    pub fn unbound(clients: &'a [&'a str], line: PipeWriter) -> Queue<'a> {
        Queue {
            binds: false,
            ..Queue::of(clients, line)
        }
    }
}

impl<'a> Port for Queue<'a> {
    type Reader = Pieces<'a>;

    type Writer = PipeWriter;

    fn listen(&mut self, number: u16) -> bool {
        if self.binds {
            self.number = Some(number);
        }
        self.binds
    }

    fn take(&mut self) -> Option<(Pieces<'a>, PipeWriter)> {
        if self.is_shut {
            return None;
        }
        let clients = self.clients;
        let client = clients.get(self.taken)?;
        let writer = self.line.try_clone().ok()?;
        self.taken = self.taken.saturating_add(1);
        Some((Pieces::of(client.as_bytes()), writer))
    }

    fn leave<R: Read + Drop, W: Write + Drop>(
        &mut self,
        _reader: R,
        _writer: W,
        _reads: Calls,
        _writes: Calls,
        _ended: Ended,
    ) {
        self.left = self.left.saturating_add(1);
        let _ = self.line.write_all(b"|");
    }

    fn shut(&mut self) {
        self.is_shut = true;
    }
}
