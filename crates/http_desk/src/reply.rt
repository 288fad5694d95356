//! Writes answers, whose texts are borrowed. Nothing here takes an allocator.
ghost use Rattle.std.specs.Prelude.{◌+◌, ◌<◌, ◌^◌, length};
ghost use Rattle.http_messages.specs.Answers.{answer_text, continue_text};
ghost use Rattle.http_messages.specs.Replies.{answer_of_view};
ghost use Rattle.http_desk.specs.AnswerOutput.{SendsAsCalled};
ghost use Rattle.http_desk.specs.Parts.{parts_text};
ghost use Rattle.http_desk.specs.Streams.{more_writes};

use crate::output::{Sent, send};
use crate::streams::Sink;
use http_messages::answers::{AnswerView, close_line, code_of, phrase, type_of};
use itoa::Buffer;
use std::io::Write;

/// The parts of an answer that differ from answer to answer.
#[derive(Clone, Copy, Debug)]
struct Parts<'a> {
    status: &'a [u8],
    phrase: &'a [u8],
    kind: &'a [u8],
    size: &'a [u8],
    allow: &'a [u8],
    close: &'a [u8],
    body: &'a [u8],
}

/// Writes the parts of an answer, with the text between them.
fn send_parts<W: Write>(writer: &mut Sink<'_, W>, parts: Parts<'_>) -> Sent
    requires { length (parts_text parts) + more_writes < 2 ^ 64 }
    ensures { SendsAsCalled (parts_text parts.entry) writer.old writer.new result }
{
    send(
        writer,
        &[
            b"HTTP/1.1 ",
            parts.status,
            b" ",
            parts.phrase,
            b"\r\nContent-Type: ",
            parts.kind,
            b"\r\nContent-Length: ",
            parts.size,
            b"\r\n",
            parts.allow,
            parts.close,
            b"\r\n",
            parts.body,
        ],
    )
}

/// Writes an answer and flushes; without its body if `bare` is true, as for HEAD. If `closing` is true, the answer says
/// that the connection is closed.
pub fn send_answer<W: Write>(
    writer: &mut Sink<'_, W>,
    bare: bool,
    closing: bool,
    answer: AnswerView<'_>,
) -> Sent
    ensures { SendsAsCalled (answer_text bare closing (answer_of_view answer.entry)) writer.old writer.new result }
{
    let status = answer.status();
    let mut digits = Buffer::new();
    let number = digits.format(code_of(status).as_u16()).as_bytes();
    let mut more_digits = Buffer::new();
    let length = more_digits.format(answer.body().len()).as_bytes();
    let parts = Parts {
        status: number,
        phrase: phrase(status),
        kind: type_of(answer.is_text()),
        size: length,
        allow: answer.allow_line(),
        close: close_line(closing),
        body: answer.written_body(bare),
    };
    send_parts(writer, parts)
}

/// Writes 100 Continue: the peer may send the body.
pub fn send_continue<W: Write>(writer: &mut Sink<'_, W>) -> Sent
    ensures { SendsAsCalled continue_text writer.old writer.new result }
{
    send(writer, &[b"HTTP/1.1 100 Continue\r\n\r\n"])
}
