//! Ports that clients connect to.
ghost use Rattle.std.specs.Prelude.{◌≡◌, IfNone, IfSome, None, Option};
ghost use Rattle.http_desk.specs.Streams.{spent};
ghost use Rattle.program.specs.Connections.{History, after_binding, after_failing, after_leaving, after_taking};

use crate::loopback::{Loopback, here};
use http_desk::session_end::Ended;
use http_desk::streams::Calls;
use std::io::{ErrorKind, Read, Write};
use std::net::{Shutdown, TcpListener, TcpStream};
use std::time::Duration;

/// A port that clients connect to, one after the other.
pub trait Port {
    /// What reads from a client.
    type Reader: Read + Drop;

    /// What writes to a client.
    type Writer: Write + Drop;

    /// What is known of it and its connections. By default nothing is, as for a port of the system.
    ghost history: { Self → Option History } = { λ _. None };

    /// Binds it to this number, and listens. Returns false if that fails; what is known of it then stays the same.
    fn listen(&mut self, number: u16) -> bool
        ensures { history self.new ≡ after_binding result (history self.old) number };

    /// Takes the next connection. Returns none if that fails, which is counted.
    fn take(&mut self) -> Option<(Self::Reader, Self::Writer)>
        ensures none { IfNone result (history self.new ≡ after_failing (history self.old)) }
        ensures taken { IfSome result (λ it. history self.new
            ≡ after_taking (history self.old) (Self.Reader.remaining it.0) (Self.Writer.contents it.1)) };

    /// Leaves the connection after a session. Its reader and its writer are given away, so that nothing is written to
    /// the client afterwards; this is how their calls went, and how the session ended.
    fn leave<R: Read + Drop, W: Write + Drop>(
        &mut self,
        reader: R,
        writer: W,
        reads: Calls,
        writes: Calls,
        ended: Ended,
    )
        ensures { history self.new ≡ after_leaving (history self.old) (spent (R.remaining reader) reads)
            (spent (W.contents writer) writes) ended };

    /// Closes the port. What is known of it stays the same.
    fn shut(&mut self)
        ensures { history self.new ≡ history self.old };
}

/// How many seconds a read or a write waits for the client.
const PATIENCE: u64 = 10;

/// How many milliseconds a read waits, once the last answer is written.
const LAST_PATIENCE: u64 = 50;

/// How many such reads are made at most. They wait 26 seconds at most, and take 8 MiB if each takes 16 KiB.
const LAST_READS: u32 = 512;

/// How many of them may wait in vain: two seconds in all.
const LAST_SILENCES: u32 = 40;

/// How many bytes such a read takes at most.
const LAST_CHUNK: usize = 65_536;

/// A port of this machine that no other machine can reach, with the client that is being served.
#[derive(Drop)]
pub struct LocalPort<'r> {
    loopback: Loopback<'r>,
    listener: Option<TcpListener>,
    client: Option<TcpStream>,
}

impl<'r> LocalPort<'r> {
    /// A port that does not listen yet.
    pub fn new(loopback: Loopback<'r>) -> LocalPort<'r> {
        LocalPort {
            loopback,
            listener: None,
            client: None,
        }
    }
}

impl Port for LocalPort<'_> {
    type Reader = TcpStream;

    type Writer = TcpStream;

    fn listen(&mut self, number: u16) -> bool {
        let Ok(listener) = self.loopback.bind(here(number)) else {
            return false;
        };
        self.listener = Some(listener);
        true
    }

    fn take(&mut self) -> Option<(TcpStream, TcpStream)> {
        let Some(listener) = &self.listener else {
            return None;
        };
        let Ok((stream, _)) = listener.accept() else {
            return None;
        };
        set_up(&stream);
        let (Ok(reader), Ok(writer)) = (stream.try_clone(), stream.try_clone()) else {
            return None;
        };
        self.client = Some(stream);
        Some((reader, writer))
    }

    fn leave<R: Read + Drop, W: Write + Drop>(
        &mut self,
        _reader: R,
        _writer: W,
        _reads: Calls,
        _writes: Calls,
        ended: Ended,
    ) {
        if let Some(stream) = &self.client
            && ended == Ended::Closed
        {
            close(stream);
        }
        self.client = None;
    }

    fn shut(&mut self) {
        self.listener = None;
    }
}

/// Makes each write be sent at once, and each read or write fail if it waits too long. If the system refuses an option,
/// the connection is served all the same.
fn set_up(stream: &TcpStream) {
    let patience = Some(Duration::from_secs(PATIENCE));
    let _ = stream.set_nodelay(true);
    let _ = stream.set_read_timeout(patience);
    let _ = stream.set_write_timeout(patience);
}

/// Shuts down the writing side, and reads and discards what still arrives, so that the last answer reaches the client:
/// a system resets a connection that is closed with unread bytes (RFC 9112, 9.6).
fn close(stream: &TcpStream) {
    let patience = Some(Duration::from_millis(LAST_PATIENCE));
    if stream.shutdown(Shutdown::Write).is_err() || stream.set_read_timeout(patience).is_err() {
        return;
    }
    let mut reader = stream;
    let mut chunk = [0u8; LAST_CHUNK];
    let mut silences = 0;
    for _read in 0..LAST_READS {
        match reader.read(&mut chunk) {
            Ok(0) => return,
            Ok(_) => {}
            Err(error) if error.kind() == ErrorKind::WouldBlock && silences < LAST_SILENCES => {
                silences += 1;
            }
            Err(_) => return,
        }
    }
}
