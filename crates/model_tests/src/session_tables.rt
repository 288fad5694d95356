//! Sessions as tables: heads at their limits, lengths of bodies, ten messages that end anywhere, every command fifty
//! times, refused memory.

use crate::streams::{Counter, Fixed, Narrow, Noting, Pieces, Tally, Then, talk_over};
use http_desk::session_end::Ended;
use std::alloc::{AllocError, Global};
use std::process::Abort;
use std::test::Fail;

const FONDS: &[u8] =
    b"HTTP/1.1 200 OK\r\nContent-Type: text/plain; charset=utf-8\r\nContent-Length: 40\r\n\r\n1 GB 0999 HUL [Fonds] Hull Dock Company\n";

const DONE: &[u8] =
    b"HTTP/1.1 200 OK\r\nContent-Type: application/json\r\nContent-Length: 12\r\n\r\n{\"ticket\":1}";

const DONE_AND_CLOSED: &[u8] =
    b"HTTP/1.1 200 OK\r\nContent-Type: application/json\r\nContent-Length: 12\r\nConnection: close\r\n\r\n{\"ticket\":1}";

const BAD: &[u8] =
    b"HTTP/1.1 400 Bad Request\r\nContent-Type: application/json\r\nContent-Length: 23\r\nConnection: close\r\n\r\n{\"error\":\"bad request\"}";

const TOO_LARGE: &[u8] =
    b"HTTP/1.1 413 Content Too Large\r\nContent-Type: application/json\r\nContent-Length: 21\r\nConnection: close\r\n\r\n{\"error\":\"too large\"}";

const NOT_IMPLEMENTED: &[u8] =
    b"HTTP/1.1 501 Not Implemented\r\nContent-Type: application/json\r\nContent-Length: 27\r\nConnection: close\r\n\r\n{\"error\":\"not implemented\"}";

const CONTINUE: &[u8] = b"HTTP/1.1 100 Continue\r\n\r\n";

const BUSY: &[u8] =
    b"HTTP/1.1 503 Service Unavailable\r\nContent-Type: application/json\r\nContent-Length: 16\r\nConnection: close\r\n\r\n{\"error\":\"busy\"}";

const ASK: &[u8] = b"GET /public/fonds HTTP/1.1\r\nHost: x\r\n\r\n";

const REGISTER: &[u8] =
    b"POST /desk/register HTTP/1.1\r\nHost: x\r\nContent-Length: 35\r\n\r\n{\"name\":\"Ann\",\"until\":\"2024-12-31\"}";

const TWO_REQUESTS: &[u8] =
    b"POST /desk/register HTTP/1.1\r\nHost: x\r\nContent-Length: 35\r\n\r\n{\"name\":\"Ann\",\"until\":\"2024-12-31\"}GET /public/fonds HTTP/1.1\r\nHost: x\r\n\r\n";

/// Checks the answer to an input, and how the session ends.
fn says(rt: &impl Abort, alloc: Global, input: &[u8], output: &[u8], end: Ended) {
    let mut desk = Counter { tickets: 0 };
    let mut reader = Pieces::new(input, 1000, Then::Ends);
    let mut writer = Narrow::new(alloc, 1_000_000, 1000, Then::Fails);
    let talked = talk_over(alloc, &mut reader, &mut writer, &mut desk);
    assert_eq!(rt; talked.ended, end);
    assert!(rt; writer.held.as_slice() == output, "{}", input.len());
}

/// The fields and the body of a request for a run, its answer, and how the session ends.
struct Head {
    fields: &'static [u8],
    body: &'static [u8],
    answer: &'static [u8],
    end: Ended,
}

const HEADS: [Head; 20] = [
    Head {
        fields: b"Host: x\r\nHost: y\r\nContent-Length: 0\r\n",
        body: b"",
        answer: BAD,
        end: Ended::Closed,
    },
    Head {
        fields: b"Content-Length: 0\r\n",
        body: b"",
        answer: BAD,
        end: Ended::Closed,
    },
    Head {
        fields: b"Host: x\r\nhOST: x\r\n",
        body: b"",
        answer: BAD,
        end: Ended::Closed,
    },
    Head {
        fields: b"Host: x\r\nContent-Length: 5\r\n",
        body: b"hello",
        answer: DONE,
        end: Ended::End,
    },
    Head {
        fields: b"Host: x\r\nContent-Length: 05\r\n",
        body: b"hello",
        answer: DONE,
        end: Ended::End,
    },
    Head {
        fields: b"Host: x\r\nContent-Length: 5\r\nContent-Length: 05\r\n",
        body: b"hello",
        answer: DONE,
        end: Ended::End,
    },
    Head {
        fields: b"Host: x\r\nContent-Length: 5\r\nContent-Length: 6\r\n",
        body: b"hello",
        answer: BAD,
        end: Ended::Closed,
    },
    Head {
        fields: b"Host: x\r\nContent-Length: +5\r\n",
        body: b"hello",
        answer: BAD,
        end: Ended::Closed,
    },
    Head {
        fields: b"Host: x\r\nContent-Length: 5, 5\r\n",
        body: b"hello",
        answer: BAD,
        end: Ended::Closed,
    },
    Head {
        fields: b"Host: x\r\nContent-Length: 5 5\r\n",
        body: b"hello",
        answer: BAD,
        end: Ended::Closed,
    },
    Head {
        fields: b"Host: x\r\nContent-Length: 0x5\r\n",
        body: b"hello",
        answer: BAD,
        end: Ended::Closed,
    },
    Head {
        fields: b"Host: x\r\nContent-Length:\r\n",
        body: b"hello",
        answer: BAD,
        end: Ended::Closed,
    },
    Head {
        fields: b"Host: x\r\nContent-Length: 5\r\n",
        body: b"hell",
        answer: b"",
        end: Ended::Cut,
    },
    Head {
        fields: b"Host: x\r\nContent-Length: 8388609\r\n",
        body: b"",
        answer: TOO_LARGE,
        end: Ended::Closed,
    },
    Head {
        fields: b"Host: x\r\nContent-Length: 9999999999999999999999999999999999999999\r\n",
        body: b"",
        answer: TOO_LARGE,
        end: Ended::Closed,
    },
    Head {
        fields: b"Host: x\r\nTransfer-Encoding: chunked\r\nContent-Length: +5\r\n",
        body: b"",
        answer: NOT_IMPLEMENTED,
        end: Ended::Closed,
    },
    Head {
        fields: b"Transfer-Encoding: chunked\r\n",
        body: b"",
        answer: BAD,
        end: Ended::Closed,
    },
    Head {
        fields: b"Host: x\r\nConnection: keep-alive, CLOSE\r\nContent-Length: 0\r\n",
        body: b"GET",
        answer: DONE_AND_CLOSED,
        end: Ended::Closed,
    },
    Head {
        fields: b"Host: x\r\nConnection: keep-alive\r\nContent-Length: 0\r\n",
        body: b"",
        answer: DONE,
        end: Ended::End,
    },
    Head {
        fields: b"Host: x\r\nContent Length: 0\r\n",
        body: b"",
        answer: BAD,
        end: Ended::Closed,
    },
];

#[test]
fn heads_and_lengths(rt: HostRuntime) -> Result<(), Fail> {
    for head in &HEADS {
        let mut input = Vec::from_slice(rt.alloc(), b"POST /desk/run HTTP/1.1\r\n")?;
        input.extend_from_slice(head.fields)?;
        input.extend_from_slice(b"\r\n")?;
        input.extend_from_slice(head.body)?;
        says(&rt, rt.alloc(), &input, head.answer, head.end);
    }
    Ok(())
}

/// A request whose head has `size` bytes.
fn head_of(alloc: Global, size: usize) -> Result<Vec<u8>, AllocError> {
    let mut head = Vec::from_slice(alloc, b"GET /public/fonds HTTP/1.1\r\nHost: x\r\nX: ")?;
    for _ in head.len()..size.saturating_sub(4) {
        head.push(b'a')?;
    }
    head.extend_from_slice(b"\r\n\r\n")?;
    Ok(head)
}

/// A head may have 16,384 bytes.
#[test]
fn long_heads(rt: HostRuntime) -> Result<(), Fail> {
    for size in 16_381..16_388usize {
        let input = head_of(rt.alloc(), size)?;
        assert_eq!(rt; input.len(), size);
        if size <= 16_384 {
            says(&rt, rt.alloc(), &input, FONDS, Ended::End);
        } else {
            says(&rt, rt.alloc(), &input, BAD, Ended::Closed);
        }
    }
    Ok(())
}

/// `lines` empty lines, followed by `then`.
fn after_lines(alloc: Global, lines: usize, then: &[u8]) -> Result<Vec<u8>, AllocError> {
    let mut input = Vec::new(alloc);
    for _ in 0..lines {
        input.push(b'\n')?;
    }
    input.extend_from_slice(then)?;
    Ok(input)
}

/// The empty lines before a head count.
#[test]
fn empty_lines(rt: HostRuntime) -> Result<(), Fail> {
    for lines in [0usize, 1, 16_345, 16_346, 16_383, 16_384] {
        let input = after_lines(rt.alloc(), lines, ASK)?;
        if lines <= 16_345 {
            says(&rt, rt.alloc(), &input, FONDS, Ended::End);
        } else {
            says(&rt, rt.alloc(), &input, BAD, Ended::Closed);
        }
    }
    for lines in [0usize, 1, 16_383, 16_384, 20_000] {
        let input = after_lines(rt.alloc(), lines, b"")?;
        if lines <= 16_383 {
            says(&rt, rt.alloc(), &input, b"", Ended::End);
        } else {
            says(&rt, rt.alloc(), &input, BAD, Ended::Closed);
        }
    }
    says(&rt, rt.alloc(), b"\r\n\r", b"", Ended::Cut);
    Ok(())
}

/// A request with `count` fields.
fn fields_of(alloc: Global, count: usize) -> Result<Vec<u8>, AllocError> {
    let mut head = Vec::from_slice(alloc, b"GET /public/fonds HTTP/1.1\r\nHost: x\r\n")?;
    for _ in 1..count {
        head.extend_from_slice(b"a: b\r\n")?;
    }
    head.extend_from_slice(b"\r\n")?;
    Ok(head)
}

#[test]
fn many_fields(rt: HostRuntime) -> Result<(), Fail> {
    for count in [1usize, 63, 64, 65, 100] {
        let input = fields_of(rt.alloc(), count)?;
        if count <= 64 {
            says(&rt, rt.alloc(), &input, FONDS, Ended::End);
        } else {
            says(&rt, rt.alloc(), &input, BAD, Ended::Closed);
        }
    }
    Ok(())
}

/// A message, how long its body is, whether leave to send it is given, and its answer.
struct Step {
    input: &'static [u8],
    body: usize,
    leave: bool,
    answer: &'static [u8],
}

const TEN: [Step; 10] = [
    Step {
        input: ASK,
        body: 0,
        leave: false,
        answer: FONDS,
    },
    Step {
        input: REGISTER,
        body: 35,
        leave: false,
        answer: DONE,
    },
    Step {
        input: b"GET /public/units/2 HTTP/1.1\r\nHost: x\r\n\r\n",
        body: 0,
        leave: false,
        answer: FONDS,
    },
    Step {
        input: b"HEAD /public/fonds HTTP/1.1\r\nHost: x\r\n\r\n",
        body: 0,
        leave: false,
        answer: b"HTTP/1.1 405 Method Not Allowed\r\nContent-Type: application/json\r\nContent-Length: 30\r\nAllow: GET\r\n\r\n",
    },
    Step {
        input: b"POST /public/fonds HTTP/1.1\r\nHost: x\r\nContent-Length: 0\r\n\r\n",
        body: 0,
        leave: false,
        answer: b"HTTP/1.1 405 Method Not Allowed\r\nContent-Type: application/json\r\nContent-Length: 30\r\nAllow: GET\r\n\r\n{\"error\":\"method not allowed\"}",
    },
    Step {
        input: b"GET /desk/day HTTP/1.1\r\nHost: x\r\n\r\n",
        body: 0,
        leave: false,
        answer: b"HTTP/1.1 405 Method Not Allowed\r\nContent-Type: application/json\r\nContent-Length: 30\r\nAllow: POST\r\n\r\n{\"error\":\"method not allowed\"}",
    },
    Step {
        input: b"POST /desk/run HTTP/1.1\r\nHost: x\r\n\r\n",
        body: 0,
        leave: false,
        answer: b"HTTP/1.1 411 Length Required\r\nContent-Type: application/json\r\nContent-Length: 27\r\n\r\n{\"error\":\"length required\"}",
    },
    Step {
        input: b"GET /public/units/02 HTTP/1.1\r\nHost: x\r\n\r\n",
        body: 0,
        leave: false,
        answer: b"HTTP/1.1 404 Not Found\r\nContent-Type: application/json\r\nContent-Length: 21\r\n\r\n{\"error\":\"not found\"}",
    },
    Step {
        input: b"POST /public/orders HTTP/1.1\r\nHost: x\r\nContent-Length: 12\r\n\r\n{\"ticket\":1}",
        body: 12,
        leave: false,
        answer: b"HTTP/1.1 400 Bad Request\r\nContent-Type: application/json\r\nContent-Length: 23\r\n\r\n{\"error\":\"bad request\"}",
    },
    Step {
        input: b"POST /desk/run HTTP/1.1\r\nHost: x\r\nExpect: 100-Continue\r\nContent-Length: 2\r\n\r\nok",
        body: 2,
        leave: true,
        answer: DONE,
    },
];

/// The answer to the first `size` bytes of the ten messages, and how the session ends.
fn expected_answer(alloc: Global, size: usize) -> Result<(Vec<u8>, Ended), AllocError> {
    let mut output = Vec::new(alloc);
    let mut left = size;
    for step in &TEN {
        if step.leave && left >= step.input.len().saturating_sub(step.body) {
            output.extend_from_slice(CONTINUE)?;
        }
        if left < step.input.len() {
            let end = if left == 0 { Ended::End } else { Ended::Cut };
            return Ok((output, end));
        }
        output.extend_from_slice(step.answer)?;
        left -= step.input.len();
    }
    Ok((output, Ended::End))
}

/// The ten messages.
fn ten(alloc: Global) -> Result<Vec<u8>, AllocError> {
    let mut input = Vec::new(alloc);
    for step in &TEN {
        input.extend_from_slice(step.input)?;
    }
    Ok(input)
}

/// The first bytes of the ten messages, in pieces, after which reads end or fail.
fn ten_cut(
    rt: &impl Abort,
    alloc: Global,
    size: usize,
    piece: usize,
    then: Then,
) -> Result<(), AllocError> {
    let input = ten(alloc)?;
    let mut desk = Counter { tickets: 0 };
    let mut writer = Narrow::new(alloc, 1_000_000, 1000, Then::Fails);
    let Some(front) = input.get(..size) else {
        return Ok(());
    };
    let mut reader = Pieces::new(front, piece, then);
    let talked = talk_over(alloc, &mut reader, &mut writer, &mut desk);
    let (output, end) = expected_answer(alloc, size)?;
    assert!(rt; writer.held == output, "{size}");
    match then {
        Then::Ends => assert_eq!(rt; talked.ended, end),
        Then::Fails => assert_eq!(rt; talked.ended, Ended::ReadFault),
        Then::Waits => assert_eq!(rt; talked.ended, Ended::Bound),
    }
    Ok(())
}

/// Ten messages that end, or whose reader fails, after any number of bytes.
#[test]
fn ten_messages(rt: HostRuntime) -> Result<(), Fail> {
    let input = ten(rt.alloc())?;
    assert_eq!(rt; input.len(), 540);
    for size in 0..=input.len() {
        for piece in [7usize, 1000] {
            ten_cut(&rt, rt.alloc(), size, piece, Then::Ends)?;
            ten_cut(&rt, rt.alloc(), size, piece, Then::Fails)?;
        }
    }
    Ok(())
}

const COMMANDS: [&[u8]; 18] = [
    b"POST /desk/day HTTP/1.1\r\nHost: x\r\nContent-Length: 20\r\n\r\n{\"day\":\"2024-05-02\"}",
    b"POST /desk/import/one HTTP/1.1\r\nHost: x\r\nContent-Length: 4\r\n\r\na,b\n",
    b"POST /desk/status HTTP/1.1\r\nHost: x\r\nContent-Length: 27\r\n\r\n{\"unit\":1,\"status\":\"draft\"}",
    b"POST /desk/closure HTTP/1.1\r\nHost: x\r\nContent-Length: 23\r\n\r\n{\"unit\":1,\"until\":null}",
    b"POST /desk/move HTTP/1.1\r\nHost: x\r\nContent-Length: 24\r\n\r\n{\"unit\":2,\"parent\":null}",
    b"POST /desk/remove HTTP/1.1\r\nHost: x\r\nContent-Length: 10\r\n\r\n{\"unit\":2}",
    b"POST /desk/register HTTP/1.1\r\nHost: x\r\nContent-Length: 35\r\n\r\n{\"name\":\"Ann\",\"until\":\"2024-12-31\"}",
    b"POST /desk/renew HTTP/1.1\r\nHost: x\r\nContent-Length: 33\r\n\r\n{\"ticket\":1,\"until\":\"2025-12-31\"}",
    b"POST /desk/seat HTTP/1.1\r\nHost: x\r\nContent-Length: 12\r\n\r\n{\"ticket\":1}",
    b"POST /desk/leave HTTP/1.1\r\nHost: x\r\nContent-Length: 12\r\n\r\n{\"ticket\":1}",
    b"POST /public/orders HTTP/1.1\r\nHost: x\r\nContent-Length: 26\r\n\r\n{\"ticket\":1,\"container\":2}",
    b"POST /desk/cancel HTTP/1.1\r\nHost: x\r\nContent-Length: 11\r\n\r\n{\"order\":1}",
    b"POST /desk/run HTTP/1.1\r\nHost: x\r\nContent-Length: 0\r\n\r\n",
    b"POST /desk/reshelve HTTP/1.1\r\nHost: x\r\nContent-Length: 0\r\n\r\n",
    b"POST /desk/issue HTTP/1.1\r\nHost: x\r\nContent-Length: 26\r\n\r\n{\"container\":2,\"ticket\":1}",
    b"POST /desk/return HTTP/1.1\r\nHost: x\r\nContent-Length: 15\r\n\r\n{\"container\":2}",
    b"POST /desk/permit HTTP/1.1\r\nHost: x\r\nContent-Length: 42\r\n\r\n{\"ticket\":1,\"unit\":1,\"until\":\"2024-12-31\"}",
    b"POST /desk/revoke HTTP/1.1\r\nHost: x\r\nContent-Length: 21\r\n\r\n{\"ticket\":1,\"unit\":1}",
];

/// Every command fifty times, in one session.
#[test]
fn fifty_rounds(rt: HostRuntime) -> Result<(), Fail> {
    let mut input = Vec::new(rt.alloc());
    for _ in 0..50u32 {
        for command in &COMMANDS {
            input.extend_from_slice(command)?;
        }
    }
    let mut desk = Tally { counts: [0; 18] };
    let mut reader = Pieces::new(&input, 1000, Then::Ends);
    let mut writer = Narrow::new(rt.alloc(), 1_000_000, 1000, Then::Fails);
    let talked = talk_over(rt.alloc(), &mut reader, &mut writer, &mut desk);
    assert_eq!(rt; talked.ended, Ended::End);
    assert_eq!(rt; writer.flushes, 900);
    assert_eq!(rt; writer.held.len(), 74700);
    assert!(rt; desk.counts == [50; 18]);
    Ok(())
}

/// Whichever request for memory is refused, what the office has answered is written whole. Then comes 503, unless the
/// input has ended. `mutation/faults/tables.sh` refuses each request in turn, also those after an answer.
#[test]
fn refused_memory(rt: HostRuntime) -> Result<(), Fail> {
    let mut desk = Noting { answers: 0 };
    let mut reader = TWO_REQUESTS;
    let mut writer = Fixed {
        bytes: [0; 1024],
        len: 0,
    };
    let talked = talk_over(rt.alloc(), &mut reader, &mut writer, &mut desk);
    let written = &writer.bytes[..writer.len.min(1024)];
    let first = written.strip_prefix(DONE);
    let later = first.unwrap_or(written);
    let second = later.strip_prefix(FONDS);
    let rest = second.unwrap_or(later);
    assert_eq!(rt; first.is_some(), desk.answers > 0);
    assert_eq!(rt; second.is_some(), desk.answers > 1);
    match talked.ended {
        Ended::End => assert!(rt; second.is_some() && rest.is_empty()),
        _ => {
            assert_eq!(rt; talked.ended, Ended::Closed);
            assert!(rt; rest == BUSY);
        }
    }
    Ok(())
}

/// Over a slice and a vector of std, and over `&mut` of them.
#[test]
fn streams_of_std(rt: HostRuntime) -> Result<(), Fail> {
    let mut desk = Counter { tickets: 0 };
    let mut input = TWO_REQUESTS;
    let mut output = Vec::new(rt.alloc());
    let talked = talk_over(rt.alloc(), &mut &mut input, &mut &mut output, &mut desk);
    assert_eq!(rt; talked.ended, Ended::End);
    assert!(rt; output.starts_with(DONE));
    assert!(rt; output.ends_with(FONDS));
    assert_eq!(rt; desk.tickets, 1);
    Ok(())
}
