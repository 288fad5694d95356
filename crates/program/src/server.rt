//! Serves an office on a port.
ghost use Rattle.program.specs.Connections.{AnswersConnection, Serves, ServesOne};

use crate::ports::Port;
use http_desk::session::talk;
use http_desk::streams::{Sink, Source};
use office::Machine;
use std::alloc::Global;

/// Holds a session with the client of a connection, and gives the connection away.
fn answer<P: Port, M: Machine>(
    alloc: Global,
    port: &mut P,
    connection: (P::Reader, P::Writer),
    office: &mut M,
)
    ensures intact { M.is_intact office.new → M.is_intact office.old }
    ensures answered { AnswersConnection M.represents M.is_intact M.is_open M.recovers
        (P.Reader.remaining connection.0) (P.Writer.contents connection.1)
        (P.history port.old) (P.history port.new) office.old office.new }
{
    let (mut reader, mut writer) = connection;
    let mut source = Source::new(&mut reader);
    let mut sink = Sink::new(&mut writer);
    let ended = talk(alloc, &mut source, &mut sink, office);
    let (reads, writes) = (source.told(), sink.told());
    let _reader = source.into_reader();
    let _writer = sink.into_writer();
    port.leave(reader, writer, reads, writes, ended);
}

/// Serves one connection, which counts however it ends. Returns false if none could be taken. If it is the last, the
/// port is closed before the session.
fn serve_one<P: Port, M: Machine>(
    alloc: Global,
    port: &mut P,
    is_last: bool,
    office: &mut M,
) -> bool
    ensures intact { M.is_intact office.new → M.is_intact office.old }
    ensures served { ServesOne M.represents M.is_intact M.is_open M.recovers (P.history port.old) (P.history port.new)
        office.old office.new result }
{
    let taken = port.take();
    if is_last {
        port.shut();
    }
    match taken {
        Some(connection) => {
            answer(alloc, port, connection, office);
            true
        }
        None => false,
    }
}

/// Serves this number of connections, one after the other, and returns true. Stops and returns false if one could not
/// be taken; those before it were served. Each one that is taken has a session, and counts however that ends. The port
/// is closed as soon as the last is taken; the contract does not say so.
pub fn serve<P: Port, M: Machine>(
    alloc: Global,
    port: &mut P,
    connections: u32,
    office: &mut M,
) -> bool
    ensures intact { M.is_intact office.new → M.is_intact office.old }
    ensures served { Serves M.represents M.is_intact M.is_open M.recovers connections
        (P.history port.old) (P.history port.new) office.old office.new result }
{
    for connection in 0..connections {
        if !serve_one(alloc, port, connection + 1 == connections, office) {
            return false;
        }
    }
    true
}
