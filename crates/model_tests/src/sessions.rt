//! Sessions over readers and writers that give and take in pieces, fail, or are interrupted.

use crate::streams::{
    Again, Counter, Disturbed, Halves, Long, Narrow, Pieces, Telling, Then, Waiting, talk_over,
};
use http_desk::session_end::Ended;
use std::alloc::Global;
use std::cell::Cell;
use std::process::Abort;
use std::test::Fail;

const ONE: &[u8] = b"GET /public/fonds HTTP/1.1\r\nHost: x\r\n\r\n";

const TWO: &[u8] =
    b"GET /public/fonds HTTP/1.1\r\nHost: x\r\n\r\nGET /public/fonds HTTP/1.1\r\nHost: x\r\n\r\n";

const FONDS: &[u8] =
    b"HTTP/1.1 200 OK\r\nContent-Type: text/plain; charset=utf-8\r\nContent-Length: 40\r\n\r\n1 GB 0999 HUL [Fonds] Hull Dock Company\n";

const REGISTER: &[u8] =
    b"POST /desk/register HTTP/1.1\r\nHost: x\r\nContent-Length: 35\r\n\r\n{\"name\":\"Ann\",\"until\":\"2024-12-31\"}";

const REGISTER_TWICE: &[u8] =
    b"POST /desk/register HTTP/1.1\r\nHost: x\r\nContent-Length: 35\r\n\r\n{\"name\":\"Ann\",\"until\":\"2024-12-31\"}POST /desk/register HTTP/1.1\r\nHost: x\r\nContent-Length: 35\r\n\r\n{\"name\":\"Bob\",\"until\":\"2024-12-31\"}";

const TICKET: &[u8] =
    b"HTTP/1.1 200 OK\r\nContent-Type: application/json\r\nContent-Length: 12\r\n\r\n{\"ticket\":1}";

const WAITS: &[u8] =
    b"POST /desk/register HTTP/1.1\r\nHost: x\r\nContent-Length: 35\r\nExpect: 100-continue\r\n\r\n";

const ANN: &[u8] = b"{\"name\":\"Ann\",\"until\":\"2024-12-31\"}";

const LEAVE: &[u8] = b"HTTP/1.1 100 Continue\r\n\r\n";

/// Whatever pieces the input comes in, even if each read is first interrupted.
#[test]
fn two_requests(rt: HostRuntime) -> Result<(), Fail> {
    for piece in 1..40usize {
        for shy in [false, true] {
            let mut desk = Counter { tickets: 0 };
            let mut reader = Pieces::new(TWO, piece, Then::Ends);
            reader.shy = shy;
            let mut writer = Narrow::new(rt.alloc(), 1000, 7, Then::Fails);
            let talked = talk_over(rt.alloc(), &mut reader, &mut writer, &mut desk);
            assert_eq!(rt; talked.ended, Ended::End);
            assert_eq!(rt; writer.held.len(), 240);
            assert!(rt; writer.held.starts_with(FONDS));
            assert!(rt; writer.held.ends_with(FONDS));
            assert_eq!(rt; talked.interrupted, shy);
            assert!(rt; talked.flushed);
            assert!(rt; !talked.read_failed);
        }
    }
    Ok(())
}

/// A reader that fails after some bytes: messages that came completely before are answered.
#[test]
fn a_reader_that_fails(rt: HostRuntime) -> Result<(), Fail> {
    for n in 0..79usize {
        if n <= TWO.len() {
            let mut desk = Counter { tickets: 0 };
            let mut reader = Pieces::new(&TWO[..n], 5, Then::Fails);
            let mut writer = Narrow::new(rt.alloc(), 1000, 7, Then::Fails);
            let talked = talk_over(rt.alloc(), &mut reader, &mut writer, &mut desk);
            assert_eq!(rt; talked.ended, Ended::ReadFault);
            assert!(rt; talked.read_failed);
            assert!(rt; !talked.write_failed);
            let answers = if n < 39 {
                0
            } else if n < 78 {
                120
            } else {
                240
            };
            assert_eq!(rt; writer.held.len(), answers);
        }
    }
    Ok(())
}

/// A writer that takes some bytes, and then fails or takes none.
#[test]
fn a_narrow_writer(rt: HostRuntime) -> Result<(), Fail> {
    for room in 0..240usize {
        for then in [Then::Ends, Then::Fails] {
            let mut desk = Counter { tickets: 0 };
            let mut reader = Pieces::new(TWO, 1000, Then::Ends);
            let mut writer = Narrow::new(rt.alloc(), room, 7, then);
            let talked = talk_over(rt.alloc(), &mut reader, &mut writer, &mut desk);
            assert_eq!(rt; talked.ended, Ended::WriteFault);
            assert_eq!(rt; writer.held.len(), room);
            assert!(rt; talked.write_failed);
            assert_eq!(rt; talked.flushed, room == 0 || room == 120);
            assert!(rt; !talked.read_failed);
        }
    }
    Ok(())
}

/// After a failed write, no later message is acted on.
#[test]
fn a_message_after_a_fault(rt: HostRuntime) -> Result<(), Fail> {
    let mut desk = Counter { tickets: 0 };
    let mut reader = Again { bytes: REGISTER };
    let mut writer = Narrow::new(rt.alloc(), 0, 7, Then::Fails);
    let talked = talk_over(rt.alloc(), &mut reader, &mut writer, &mut desk);
    assert_eq!(rt; talked.ended, Ended::WriteFault);
    assert_eq!(rt; desk.tickets, 1);
    Ok(())
}

/// Two registrations in one piece: the second is acted on only once the first is answered.
#[test]
fn two_registrations_in_one_piece(rt: HostRuntime) -> Result<(), Fail> {
    for room in 0..166usize {
        let mut desk = Counter { tickets: 0 };
        let mut reader = Pieces::new(REGISTER_TWICE, 1000, Then::Ends);
        let mut writer = Narrow::new(rt.alloc(), room, 7, Then::Fails);
        let talked = talk_over(rt.alloc(), &mut reader, &mut writer, &mut desk);
        assert_eq!(rt; talked.ended, Ended::WriteFault);
        assert_eq!(rt; writer.held.len(), room);
        assert_eq!(rt; desk.tickets, if room < TICKET.len() { 1 } else { 2 });
    }
    Ok(())
}

/// The number of calls for a message is bounded: of a reader, and of a writer in addition to the answer's length.
#[test]
fn calls_without_end(rt: HostRuntime) -> Result<(), Fail> {
    let mut desk = Counter { tickets: 0 };
    let mut reader = Pieces::new(b"", 1, Then::Waits);
    let mut writer = Narrow::new(rt.alloc(), 1000, 7, Then::Fails);
    let talked = talk_over(rt.alloc(), &mut reader, &mut writer, &mut desk);
    assert_eq!(rt; talked.ended, Ended::Bound);
    assert_eq!(rt; reader.reads, 8_404_993);
    assert_eq!(rt; talked.reads, 8_404_993);
    assert!(rt; talked.interrupted);
    for room in [0usize, 100] {
        let mut reader = Pieces::new(ONE, 1000, Then::Ends);
        let mut writer = Narrow::new(rt.alloc(), room, 1, Then::Waits);
        let talked = talk_over(rt.alloc(), &mut reader, &mut writer, &mut desk);
        assert_eq!(rt; talked.ended, Ended::Bound);
        assert_eq!(rt; writer.calls, 136);
        assert_eq!(rt; talked.writes, 136);
        assert_eq!(rt; writer.held.len(), room);
    }
    Ok(())
}

/// An interruption at a write or a flush of one answer takes nothing from another: each is 120 writes and a flush.
#[test]
fn an_interruption_at_each_call(rt: HostRuntime) -> Result<(), Fail> {
    for once in 1..243u64 {
        let mut desk = Counter { tickets: 0 };
        let mut reader = Pieces::new(TWO, 1000, Then::Ends);
        let mut writer = Disturbed::new(rt.alloc(), once, u64::MAX);
        let talked = talk_over(rt.alloc(), &mut reader, &mut writer, &mut desk);
        assert_eq!(rt; talked.ended, Ended::End, "{once}");
        assert_eq!(rt; writer.held.len(), 240);
        assert!(rt; writer.held.starts_with(FONDS));
        assert!(rt; writer.held.ends_with(FONDS));
        assert_eq!(rt; talked.writes, 243);
        assert!(rt; talked.interrupted);
        assert!(rt; talked.flushed);
    }
    Ok(())
}

/// After an interruption of the first answer, the second has as many calls as it would have without: its 120 bytes and
/// 16 more. The first takes 122 calls.
#[test]
fn calls_without_end_after_an_interruption(rt: HostRuntime) -> Result<(), Fail> {
    for once in [1u64, 60, 120, 121] {
        for (from, held) in [(123u64, 120usize), (124, 121), (235, 232), (243, 240)] {
            let mut desk = Counter { tickets: 0 };
            let mut reader = Pieces::new(TWO, 1000, Then::Ends);
            let mut writer = Disturbed::new(rt.alloc(), once, from);
            let talked = talk_over(rt.alloc(), &mut reader, &mut writer, &mut desk);
            assert_eq!(rt; talked.ended, Ended::Bound);
            assert_eq!(rt; talked.writes, 258, "{once} {from}");
            assert_eq!(rt; writer.held.len(), held);
        }
    }
    Ok(())
}

/// The same for reads: the first message takes two, of which one is interrupted.
#[test]
fn reads_without_end_after_an_interruption(rt: HostRuntime) -> Result<(), Fail> {
    let mut desk = Counter { tickets: 0 };
    let mut reader = Pieces::new(ONE, 1000, Then::Waits);
    reader.shy = true;
    let mut writer = Narrow::new(rt.alloc(), 1000, 1000, Then::Fails);
    let talked = talk_over(rt.alloc(), &mut reader, &mut writer, &mut desk);
    assert_eq!(rt; talked.ended, Ended::Bound);
    assert_eq!(rt; talked.reads, 8_404_995);
    assert_eq!(rt; writer.held.len(), 120);
    Ok(())
}

/// Leave to send a body is flushed before any byte of the body is read; a flush that is interrupted is tried again.
#[test]
fn leave_before_the_body(rt: HostRuntime) -> Result<(), Fail> {
    for shy in 0..15u32 {
        let flushed = Cell::new(0);
        let mut desk = Counter { tickets: 0 };
        let mut reader = Waiting {
            head: WAITS,
            body: ANN,
            flushed: &flushed,
            leave: LEAVE.len(),
            early: false,
        };
        let mut writer = Telling {
            held: Vec::new(rt.alloc()),
            flushed: &flushed,
            shy,
            writes: 0,
        };
        let talked = talk_over(rt.alloc(), &mut reader, &mut writer, &mut desk);
        assert_eq!(rt; talked.ended, Ended::End);
        assert!(rt; !reader.early);
        assert!(rt; writer.held.starts_with(LEAVE));
        assert!(rt; writer.held.ends_with(b"\r\n\r\n{\"ticket\":1}"));
        assert_eq!(rt; flushed.get(), writer.held.len());
        assert_eq!(rt; talked.interrupted, shy > 0);
        assert_eq!(rt; writer.writes, 2);
    }
    Ok(())
}

/// The number of calls for the leave to send a body is bounded too: its 25 bytes and 16 more, however much of it was
/// taken.
#[test]
fn leave_without_end(rt: HostRuntime) -> Result<(), Fail> {
    for room in [0usize, 10, 25] {
        let mut desk = Counter { tickets: 0 };
        let mut reader = Pieces::new(WAITS, 1000, Then::Ends);
        let mut writer = Narrow::new(rt.alloc(), room, 1, Then::Waits);
        writer.flushes_wait = true;
        let talked = talk_over(rt.alloc(), &mut reader, &mut writer, &mut desk);
        assert_eq!(rt; talked.ended, Ended::Bound);
        assert_eq!(rt; writer.calls, 41);
        assert_eq!(rt; writer.held.len(), room);
        assert_eq!(rt; talked.flushed, room == 0);
        assert_eq!(rt; desk.tickets, 0);
    }
    Ok(())
}

/// An answer that fits into one lot with its head is one write, and any other is two.
#[test]
fn few_writes(rt: HostRuntime) -> Result<(), Fail> {
    for size in [0usize, 40, 999, 1900, 1959, 1960, 2048, 5000, 300_000] {
        let flushed = Cell::new(0);
        let mut desk = Long { size };
        let mut reader = Pieces::new(ONE, 1000, Then::Ends);
        let mut writer = Telling {
            held: Vec::new(rt.alloc()),
            flushed: &flushed,
            shy: 0,
            writes: 0,
        };
        let talked = talk_over(rt.alloc(), &mut reader, &mut writer, &mut desk);
        assert_eq!(rt; talked.ended, Ended::End);
        assert!(rt; writer.held.len() > size);
        let wanted = if writer.held.len() <= 2048 { 1 } else { 2 };
        assert_eq!(rt; writer.writes, wanted, "{size}");
        assert_eq!(rt; flushed.get(), writer.held.len());
    }
    Ok(())
}

/// The 10,000th answer closes the connection, and says so.
#[test]
fn the_last_answer(rt: HostRuntime) -> Result<(), Fail> {
    let mut desk = Counter { tickets: 0 };
    let mut reader = Again { bytes: ONE };
    let mut writer = Narrow::new(rt.alloc(), 2_000_000, 1000, Then::Fails);
    let talked = talk_over(rt.alloc(), &mut reader, &mut writer, &mut desk);
    assert_eq!(rt; talked.ended, Ended::Closed);
    assert_eq!(rt; writer.flushes, 10_000);
    assert_eq!(rt; writer.held.len(), 1_200_019);
    Ok(())
}

/// The answer to an input, how the session ends, and how many tickets were given.
struct Case {
    input: &'static [u8],
    output: &'static [u8],
    end: Ended,
    tickets: u64,
}

fn says(rt: &impl Abort, alloc: Global, case: &Case) {
    let mut desk = Counter { tickets: 0 };
    let mut reader = Pieces::new(case.input, 1000, Then::Ends);
    let mut writer = Narrow::new(alloc, 100_000, 1000, Then::Fails);
    let talked = talk_over(alloc, &mut reader, &mut writer, &mut desk);
    assert_eq!(rt; talked.ended, case.end);
    assert!(rt; writer.held.as_slice() == case.output, "{}", desk.tickets);
    assert_eq!(rt; desk.tickets, case.tickets);
}

const CASES: [Case; 9] = [
    Case {
        input: b"GET /public/fonds HTTP/1.0\r\n\r\nGET",
        output: b"HTTP/1.1 200 OK\r\nContent-Type: text/plain; charset=utf-8\r\nContent-Length: 40\r\nConnection: close\r\n\r\n1 GB 0999 HUL [Fonds] Hull Dock Company\n",
        end: Ended::Closed,
        tickets: 0,
    },
    Case {
        input: b"HEAD /public/fonds HTTP/1.1\r\nHost: x\r\n\r\n",
        output: b"HTTP/1.1 405 Method Not Allowed\r\nContent-Type: application/json\r\nContent-Length: 30\r\nAllow: GET\r\n\r\n",
        end: Ended::End,
        tickets: 0,
    },
    Case {
        input: b"POST /desk/register HTTP/1.1\r\nHost: x\r\nContent-Length: 35\r\n\r\n0123456789",
        output: b"",
        end: Ended::Cut,
        tickets: 0,
    },
    Case {
        input: b"POST /desk/register HTTP/1.1\r\nHost: x\r\nContent-Length: 35\r\n\r\n{\"name\":\"Ann\",\"until\":\"2024-12-31\"}\r\n",
        output: b"HTTP/1.1 200 OK\r\nContent-Type: application/json\r\nContent-Length: 12\r\n\r\n{\"ticket\":1}",
        end: Ended::End,
        tickets: 1,
    },
    Case {
        input: b"POST /public/orders HTTP/1.1\r\nHost: x\r\nContent-Length: 28\r\n\r\n{\"ticket\":1,\"container\":\"x\"}",
        output: b"HTTP/1.1 400 Bad Request\r\nContent-Type: application/json\r\nContent-Length: 23\r\n\r\n{\"error\":\"bad request\"}",
        end: Ended::End,
        tickets: 0,
    },
    Case {
        input: b"POST /public/fonds HTTP/1.1\r\nHost: x\r\nTransfer-Encoding: chunked\r\n\r\n",
        output: b"HTTP/1.1 501 Not Implemented\r\nContent-Type: application/json\r\nContent-Length: 27\r\nConnection: close\r\n\r\n{\"error\":\"not implemented\"}",
        end: Ended::Closed,
        tickets: 0,
    },
    Case {
        input: b"POST /desk/run HTTP/1.1\r\nHost: x\r\n\r\n",
        output: b"HTTP/1.1 411 Length Required\r\nContent-Type: application/json\r\nContent-Length: 27\r\n\r\n{\"error\":\"length required\"}",
        end: Ended::End,
        tickets: 0,
    },
    Case {
        input: b"OPTIONS * HTTP/1.1\r\nHost: x\r\n\r\n",
        output: b"HTTP/1.1 404 Not Found\r\nContent-Type: application/json\r\nContent-Length: 21\r\n\r\n{\"error\":\"not found\"}",
        end: Ended::End,
        tickets: 0,
    },
    Case {
        input: b"POST /desk/run HTTP/1.1\r\nHost: x\r\nContent-Length: 1\r\nExpect: 100-Continue\r\n\r\n",
        output: b"HTTP/1.1 100 Continue\r\n\r\n",
        end: Ended::Cut,
        tickets: 0,
    },
];

#[test]
fn worked_sessions(rt: HostRuntime) -> Result<(), Fail> {
    for case in &CASES {
        says(&rt, rt.alloc(), case);
    }
    Ok(())
}

/// The same, with the input split into two parts at every position.
#[test]
fn sessions_in_two_parts(rt: HostRuntime) -> Result<(), Fail> {
    for case in &CASES {
        for at in 0..=case.input.len() {
            if at <= case.input.len() {
                let mut desk = Counter { tickets: 0 };
                let mut reader = Halves {
                    first: &case.input[..at],
                    second: &case.input[at..],
                };
                let mut writer = Narrow::new(rt.alloc(), 100_000, 1000, Then::Fails);
                let talked = talk_over(rt.alloc(), &mut reader, &mut writer, &mut desk);
                assert_eq!(rt; talked.ended, case.end);
                assert!(rt; writer.held.as_slice() == case.output, "{at}");
                assert_eq!(rt; desk.tickets, case.tickets);
            }
        }
    }
    Ok(())
}
