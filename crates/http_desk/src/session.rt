//! A session with one peer.
ghost use Rattle.std.specs.Prelude.{◌≢◌, ◌||◌, ◌⊎◌, ◌<◌, true, false, ◌≡◌, ◌≤◌, ◌+◌, ◌*◌, ◌++◌};
ghost use Rattle.std.specs.Prelude.{length, take, drop, unwrap_or, nat_eq, MatchResult};
ghost use Rattle.std.specs.Io.KnownBytes.{Appends};
ghost use Rattle.httparse.specs.Spans.{IsWithin, span_bytes};
ghost use Rattle.isad_core.specs.Texts.{Bytes};
ghost use Rattle.http_messages.specs.Answers.{answer_text, continue_text, error};
ghost use Rattle.http_messages.specs.Heads.{Accepted, is_head};
ghost use Rattle.http_messages.specs.HeadVerdict.{request_in};
ghost use Rattle.http_messages.specs.Replies.{answer_of_view};
ghost use Rattle.http_desk.specs.Laws.{HasEnded};
ghost use Rattle.http_desk.specs.Messages.{HasHead};
ghost use Rattle.http_desk.specs.AnswerOutput.{Sends};
ghost use Rattle.http_desk.specs.Bounds.{ExchangeBounded, StopsBounded, TalksBounded};
ghost use Rattle.http_desk.specs.Session.{continue_if, most_answers, refusal_text};
ghost use Rattle.http_desk.specs.Streams.{most_reads};
ghost use Rattle.http_desk.specs.Exchanges.{EndsAsCalled, Exchange, Refused, SendsAnswer, StaysFailed, Talks};
ghost use Rattle.http_desk.specs.Exchanges.{TalksWhole};
ghost use Rattle.http_desk.specs.Exchanges.{Through, Turn, WritesAsCalled, after_sending};
ghost use Rattle.http_desk.specs.StreamFaults.{IsQuiet, IsUsedUp, TakesCalls, TakesTurns, TellsSomeWriteBound};
ghost use Rattle.http_desk.specs.StreamFaults.{TellsWriteBound, TextIsUsedUp, send_failed};

use crate::message_input::{FoundBody, FoundHead, body_len, gather_body, gather_head};
use crate::output::Sent;
use crate::reply::{send_answer, send_continue};
use crate::requests::Means;
use crate::responses::prepare;
use crate::session_end::{Ended, Next};
use crate::streams::{Sink, Source};
use http_messages::answers::AnswerView;
use http_messages::head_verdict::{Head, Judged, is_bare_method, judge};
use http_messages::status::Status;
use office_core::{Busy, Machine};
use std::alloc::Global;
use std::io::{Read, Write};

/// How many messages of a session are answered at most. The last answer closes the connection.
pub const ANSWERS: u32 = 10_000;

/// What comes next: `next` if all of the answer was sent, and otherwise the end of the session.
fn after(sent: Sent, next: Next) -> Next
    ensures { result ≡ after_sending sent next }
{
    match sent {
        Sent::All => next,
        Sent::Failed => Next::Ends(Ended::WriteFault),
        Sent::Bound => Next::Ends(Ended::Bound),
    }
}

/// Writes a fixed answer, after which the session ends.
fn refuse<W: Write>(writer: &mut Sink<'_, W>, bare: bool, status: Status) -> Next
    ensures sent { Refused writer.old.bytes writer.new.bytes bare status result }
    ensures stream { WritesAsCalled writer.old writer.new result }
    ensures used_up { TellsWriteBound (refusal_text bare (error status)) writer.new result }
{
    let sent = send_answer(writer, bare, true, AnswerView::fixed_answer(status));
    after(sent, Next::Ends(Ended::Closed))
}

/// Writes the whole answer of the office, and returns what comes next. It gets no allocator, and nothing that has one.
#[tactic(auto, using(crate::proofs::Endings::answer_told, crate::proofs::Endings::answer_bound))]
fn reply<W: Write>(
    writer: &mut Sink<'_, W>,
    bare: bool,
    closing: bool,
    answer: AnswerView<'_>,
) -> Next
    ensures sent { SendsAnswer writer.old.bytes writer.new.bytes closing
        (answer_text bare closing (answer_of_view answer.entry)) result }
    ensures stream { WritesAsCalled writer.old writer.new result }
    ensures used_up { TellsWriteBound (answer_text bare closing (answer_of_view answer.entry)) writer.new result }
{
    let sent = send_answer(writer, bare, closing, answer);
    if closing {
        after(sent, Next::Ends(Ended::Closed))
    } else {
        after(sent, Next::Goes)
    }
}

/// Writes the whole answer, or that the office is busy, and returns what comes next. It gets no allocator, and nothing
/// that has one.
fn reply_or_refuse<W: Write>(
    writer: &mut Sink<'_, W>,
    bare: bool,
    closing: bool,
    answered: Result<AnswerView<'_>, Busy>,
) -> Next
    ensures sent { MatchResult answered.entry
        (λ view. SendsAnswer writer.old.bytes writer.new.bytes closing
        (answer_text bare closing (answer_of_view view)) result)
        (λ _. Refused writer.old.bytes writer.new.bytes false Status.Busy result) }
    ensures stream { WritesAsCalled writer.old writer.new result }
    ensures used_up { MatchResult answered.entry
        (λ view. TellsWriteBound (answer_text bare closing (answer_of_view view)) writer.new result)
        (λ _. TellsWriteBound (refusal_text false (error Status.Busy)) writer.new result) }
{
    match answered {
        Ok(answer) => reply(writer, bare, closing, answer),
        Err(_busy) => refuse(writer, false, Status::Busy),
    }
}

/// Writes 100 Continue if the head waits for it.
fn allow_body<W: Write>(writer: &mut Sink<'_, W>, head: Head) -> Sent
    ensures writes { writer.new.failed ≡ (send_failed result || writer.old.failed) }
    ensures turns { writer.new.interrupted ≡ false → (writer.old.interrupted ≡ false) × (result ≢ Sent.Bound) }
    ensures used_up { result ≡ Sent.Bound → TextIsUsedUp continue_text writer.new }
    ensures due { result ≡ Sent.Bound → head.waits ≡ true }
    ensures same { writer.new.name ≡ writer.old.name }
    ensures sends { Sends writer.old.bytes writer.new.bytes (continue_if head.waits) result }
    ensures flushed { result ≡ Sent.All → writer.old.flushed ≡ true → writer.new.flushed ≡ true }
{
    if head.waits {
        send_continue(writer)
    } else {
        Sent::All
    }
}

/// Whether the connection is closed after the answer with this number.
fn is_closing(head: Head, number: u32) -> bool
    ensures { result ≡ (head.closes || nat_eq number most_answers) }
{
    head.closes || number == ANSWERS
}

/// Whether the method is HEAD.
fn is_bare(block: &[u8], head: Head) -> bool
    requires { IsWithin (length block.now) head.method }
    ensures { result ≡ is_head (span_bytes block.now head.method) }
{
    is_bare_method(head.method.of(block))
}

/// Answers a whole message. Until the answer is written, it borrows the buffer, and the functions that write it get no
/// allocator. That no memory is taken meanwhile can be read here, and is tested.
fn act<W: Write, M: Machine>(
    means: &Means,
    writer: &mut Sink<'_, W>,
    office: &mut M,
    buffer: &mut Vec<u8>,
    size: usize,
    head: Head,
    number: u32,
) -> Next
    requires whole { size + unwrap_or head.length 0 ≤ length buffer.old.items }
    requires method { IsWithin (length (take size buffer.old.items)) head.method }
    requires target { IsWithin (length (take size buffer.old.items)) head.target }
    requires accepted { HasHead buffer.old.items (take size buffer.old.items)
        (Accepted (request_in (take size buffer.old.items) head)) (drop size buffer.old.items) }
    ensures turn { (written : Bytes) × Appends writer.old.bytes writer.new.bytes written
        × Through M.represents M.is_intact office.old office.new (λ s t.
        Turn (M.is_open office.old) (M.is_open office.new) (M.recovers office.old) (M.recovers office.new)
        number s buffer.old.items result
        (continue_if head.waits ++ written) t buffer.new.items) }
    ensures store { StaysFailed M.is_intact M.is_open office.old office.new }
    ensures stream { WritesAsCalled writer.old writer.new result }
    ensures used_up { TellsSomeWriteBound writer.new result }
    ensures breaks_off { result ≡ Next.Ends Ended.Bound
        → (written : Bytes) × Appends writer.old.bytes writer.new.bytes written
        × Through M.represents M.is_intact office.old office.new (λ s t. StopsBounded number s buffer.old.items
        (continue_if head.waits ++ written) t writer.new) }
{
    let closing = is_closing(head, number);
    let bare = is_bare(&buffer[..size], head);
    let prepared = prepare(means, office, buffer, size, head);
    let next = reply_or_refuse(writer, bare, closing, prepared.view());
    let _buffer = prepared.into_buffer();
    next
}

/// Receives the body of an accepted head, and answers the message.
fn receive<R: Read, W: Write, M: Machine>(
    means: &Means,
    reader: &mut Source<'_, R>,
    writer: &mut Sink<'_, W>,
    office: &mut M,
    buffer: &mut Vec<u8>,
    size: usize,
    head: Head,
    number: u32,
) -> Next
    requires within { size ≤ length buffer.old.items }
    requires given { reader.old.given ≡ most_reads }
    requires turns { reader.old.interrupted ≡ false
        → size + unwrap_or head.length 0 < reader.old.turns + length buffer.old.items }
    requires method { IsWithin (length (take size buffer.old.items)) head.method }
    requires target { IsWithin (length (take size buffer.old.items)) head.target }
    requires accepted { HasHead buffer.old.items (take size buffer.old.items)
        (Accepted (request_in (take size buffer.old.items) head)) (drop size buffer.old.items) }
    ensures turn { Exchange M.represents M.is_intact M.is_open M.recovers number reader.old.bytes reader.new.bytes
        writer.old.bytes writer.new.bytes office.old buffer.old.items result office.new buffer.new.items }
    ensures store { StaysFailed M.is_intact M.is_open office.old office.new }
    ensures streams { EndsAsCalled TakesTurns reader.old reader.new writer.old writer.new result }
    ensures breaks_off { result ≡ Next.Ends Ended.Bound → IsUsedUp most_reads reader.new
        ⊎ ExchangeBounded M.represents M.is_intact number reader.old.bytes reader.new.bytes
        writer.old.bytes writer.new office.old buffer.old.items office.new }
{
    match allow_body(writer, head) {
        Sent::All => {}
        fault => return after(fault, Next::Ends(Ended::Closed)),
    }
    let end = size.saturating_add(body_len(head));
    match gather_body(reader, buffer, end) {
        FoundBody::Whole => act(means, writer, office, buffer, size, head, number),
        FoundBody::Cut => Next::Ends(Ended::Cut),
        FoundBody::Failed => Next::Ends(Ended::ReadFault),
        FoundBody::Bound => Next::Ends(Ended::Bound),
        FoundBody::NoMemory => refuse(writer, false, Status::Busy),
    }
}

/// Reads one message, answers it, and returns what comes next. `number` is the message's in the session, counted from
/// 1. The buffer has what was read before and not yet answered. A message takes no more reads than the longest head and
/// body have bytes, and one more.
pub fn exchange<R: Read, W: Write, M: Machine>(
    means: &Means,
    reader: &mut Source<'_, R>,
    writer: &mut Sink<'_, W>,
    office: &mut M,
    buffer: &mut Vec<u8>,
    number: u32,
) -> Next
    ensures turn { Exchange M.represents M.is_intact M.is_open M.recovers number reader.old.bytes reader.new.bytes
        writer.old.bytes writer.new.bytes office.old buffer.old.items result office.new buffer.new.items }
    ensures store { StaysFailed M.is_intact M.is_open office.old office.new }
    ensures streams { EndsAsCalled (TakesCalls most_reads) reader.old reader.new writer.old writer.new result }
    ensures breaks_off { result ≡ Next.Ends Ended.Bound → IsUsedUp most_reads reader.new
        ⊎ ExchangeBounded M.represents M.is_intact number reader.old.bytes reader.new.bytes
        writer.old.bytes writer.new office.old buffer.old.items office.new }
{
    reader.begin_message();
    match gather_head(reader, buffer) {
        FoundHead::Whole(size) => match judge(&buffer[..size]) {
            Judged::Refused(status, bare) => refuse(writer, bare, status),
            Judged::Accepted(head) => {
                receive(means, reader, writer, office, buffer, size, head, number)
            }
        },
        FoundHead::TooLong => refuse(writer, false, Status::BadRequest),
        FoundHead::Blank => Next::Ends(Ended::End),
        FoundHead::Cut => Next::Ends(Ended::Cut),
        FoundHead::Failed => Next::Ends(Ended::ReadFault),
        FoundHead::Bound => Next::Ends(Ended::Bound),
        FoundHead::NoMemory => refuse(writer, false, Status::Busy),
    }
}

/// Answers the requests of one peer, one after the other.
fn talk_with<R: Read, W: Write, M: Machine>(
    means: &mut Means,
    reader: &mut Source<'_, R>,
    writer: &mut Sink<'_, W>,
    office: &mut M,
) -> Ended
    ensures session { Talks M.represents M.is_intact M.is_open M.recovers reader.old.bytes reader.new.bytes
        writer.old.bytes writer.new.bytes office.old result office.new }
    ensures store { StaysFailed M.is_intact M.is_open office.old office.new }
    ensures streams { EndsAsCalled (TakesCalls (most_answers * most_reads)) reader.old reader.new
        writer.old writer.new (Next.Ends result) }
    ensures breaks_off { result ≡ Ended.Bound → TalksBounded M.represents M.is_intact reader.old.bytes reader.new
        writer.old.bytes writer.new office.old office.new }
{
    let mut buffer = means.empty_buffer();
    for number in 1..ANSWERS + 1 {
        match exchange(means, reader, writer, office, &mut buffer, number) {
            Next::Goes => {}
            Next::Ends(ended) => return ended,
        }
    }
    Ended::Closed
}

/// Answers the requests of one peer, one after the other, at most 10000. What was read is the input of a session, and
/// what was written is its output. From the reader and the writer the caller can see how their calls went. What is said
/// of the office's state holds as long as its store has returned what was written.
pub fn talk<R: Read, W: Write, M: Machine>(
    alloc: Global,
    reader: &mut Source<'_, R>,
    writer: &mut Sink<'_, W>,
    office: &mut M,
) -> Ended
    ensures session { Talks M.represents M.is_intact M.is_open M.recovers reader.old.bytes reader.new.bytes
        writer.old.bytes writer.new.bytes office.old result office.new }
    // If the reader's bytes are known, and no fault broke the session off, it is a session of all of them.
    ensures whole { TalksWhole M.represents M.is_intact M.is_open M.recovers reader.old.bytes
        writer.old.bytes writer.new.bytes office.old result office.new }
    ensures store { StaysFailed M.is_intact M.is_open office.old office.new }
    // All that was written was flushed, unless a fault of the writer or a bound ends the session. If no such call had
    // failed before, a read or write fault is returned exactly if one failed now. A bound is returned only if a call
    // was interrupted, and as many calls were made as the message, or the text that broke off, may have: one read for
    // each byte of the longest message and one more, or one write or flush for each byte of the text and 16 more.
    ensures streams { EndsAsCalled (TakesCalls (most_answers * most_reads)) reader.old reader.new
        writer.old writer.new (Next.Ends result) }
    ensures breaks_off { result ≡ Ended.Bound → TalksBounded M.represents M.is_intact reader.old.bytes reader.new
        writer.old.bytes writer.new office.old office.new }
    ensures quiet { IsQuiet reader.new → IsQuiet writer.new → HasEnded result }
{
    match Means::new(alloc) {
        Ok(mut means) => talk_with(&mut means, reader, writer, office),
        Err(_) => match refuse(writer, false, Status::Busy) {
            Next::Ends(ended) => ended,
            Next::Goes => unreachable!(),
        },
    }
}
