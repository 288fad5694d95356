//! Answers to requests. What is done here after the office has answered has no allocator in reach.
ghost use Rattle.std.specs.Prelude.{◌≡◌, ◌≤◌, ◌+◌, length, take, drop, unwrap_or, OnOk, ⊤, IsOk, codes};
ghost use Rattle.httparse.specs.Spans.{IsWithin};
ghost use Rattle.office_core.specs.Rules as rules;
ghost use Rattle.office_core.specs.Json.{reply_text};
ghost use Rattle.office_core.specs.Queries.{answer};
ghost use Rattle.http_messages.specs.Answers as spec;
ghost use Rattle.http_messages.specs.HeadVerdict.{request_in};
ghost use Rattle.http_messages.specs.Replies.{answer_in};
ghost use Rattle.http_messages.specs.declared.status.Status.TheVariants.{Fine};
ghost use Rattle.http_desk.specs.AnswerOutput.{IsViewOf};
ghost use Rattle.http_desk.specs.MachineAnswers.{AnswersAs};
ghost use Rattle.http_desk.specs.Purposes.{IsNoQuestion, meaning_of};
ghost use Rattle.http_desk.specs.Runs.{carried_out};

use crate::input_buffer::take_message;
use crate::message_input::body_len;
use crate::office_call::OfficeCall;
use crate::requests::{Means, Purpose};
use http_messages::answers::{AnswerView, Answered};
use http_messages::head_verdict::Head;
use http_messages::status::Status;
use office_core::{Answer, Busy, Command, Machine, Query, Reply};

/// The answer for a reply.
fn of_reply(reply: Reply) -> Answered
    ensures same { (r : rules.Reply) → reply.done ≡ r → reply.json ≡ reply_text r → answer_in result ≡ spec.of_reply r }
    ensures accepted { (answer_in result).status ≡ Fine → IsOk reply.done }
{
    let Reply { done, json } = reply;
    match done {
        Ok(_) => Answered::Json(json),
        Err(_) => Answered::Refused(json),
    }
}

/// The answer for the office's answer to a question.
fn of_told(told: Answer) -> Answered
    ensures { answer_in result ≡ spec.of_told told }
{
    match told {
        Answer::Text(text) => Answered::Text(text),
        Answer::Json(text) => Answered::Json(text),
        Answer::Unknown(_) => Answered::Error(Status::NotFound),
    }
}

/// Carries out a command. Once the office has answered, no allocator is in reach.
fn answer_command<M: Machine>(
    call: OfficeCall,
    office: &mut M,
    command: Command,
) -> Result<Answered, Busy>
    ensures { AnswersAs M.represents M.is_intact M.is_open M.recovers office.old office.new
        (λ s. spec.command_answer s command) ⊤ result }
{
    match call.apply(office, command) {
        Ok(reply) => Ok(of_reply(reply)),
        Err(busy) => Err(busy),
    }
}

/// Answers a question. Once the office has answered, no allocator is in reach.
fn answer_question<M: Machine>(
    call: OfficeCall,
    office: &mut M,
    query: Query,
) -> Result<Answered, Busy>
    ensures { AnswersAs M.represents M.is_intact M.is_open M.recovers office.old office.new
        (λ s. (spec.of_told (answer s query), s)) ⊥ result }
{
    match call.ask(office, query) {
        Ok(told) => Ok(of_told(told)),
        Err(busy) => Err(busy),
    }
}

/// Does what a request is for.
fn answer_purpose<M: Machine>(
    call: OfficeCall,
    office: &mut M,
    purpose: Purpose,
) -> Result<Answered, Busy>
    ensures { AnswersAs M.represents M.is_intact M.is_open M.recovers office.old office.new
        (λ s. carried_out s (meaning_of purpose)) (IsNoQuestion purpose) result }
{
    match purpose {
        Purpose::Command(command) => answer_command(call, office, command),
        Purpose::Question(query) => answer_question(call, office, query),
        Purpose::Nothing(answered) => Ok(answered),
    }
}

/// Answers a request whose body is complete.
fn respond<M: Machine>(
    means: &Means,
    office: &mut M,
    block: &[u8],
    head: Head,
    body: Vec<u8>,
) -> Result<Answered, Busy>
    requires method { IsWithin (length block.now) head.method }
    requires target { IsWithin (length block.now) head.target }
    ensures { AnswersAs M.represents M.is_intact M.is_open M.recovers office.old office.new
        (λ s. spec.response s (request_in block.now head) body.items)
        ((request_in block.now head).method ≡ codes "POST") result }
{
    match means.purpose(block, head, body) {
        Ok(purpose) => answer_purpose(means.office_call(), office, purpose),
        Err(_) => Err(Busy::Memory),
    }
}

/// Removes the message from the front of the buffer, and answers it.
fn answer_first<M: Machine>(
    means: &Means,
    office: &mut M,
    buffer: &mut Vec<u8>,
    size: usize,
    head: Head,
) -> Result<Answered, Busy>
    requires whole { size + unwrap_or head.length 0 ≤ length buffer.old.items }
    requires method { IsWithin (length (take size buffer.old.items)) head.method }
    requires target { IsWithin (length (take size buffer.old.items)) head.target }
    ensures machine { AnswersAs M.represents M.is_intact M.is_open M.recovers office.old office.new
        (λ s. spec.response s (request_in (take size buffer.old.items) head)
        (take (unwrap_or head.length 0) (drop size buffer.old.items)))
        ((request_in (take size buffer.old.items) head).method ≡ codes "POST") result }
    ensures left { OnOk result (buffer.new.items ≡ drop (size + unwrap_or head.length 0) buffer.old.items) }
{
    match take_message(buffer, size, body_len(head)) {
        Ok((block, body)) => respond(means, office, &block, head, body),
        Err(_) => Err(Busy::Memory),
    }
}

/// An answer that waits to be written. Until then it borrows the buffer that the message came from.
#[derive(Drop)]
pub struct Prepared<'b> {
    answered: Result<Answered, Busy>,
    buffer: &'b mut Vec<u8>,
}

impl<'b> Prepared<'b> {
    /// The answer as it is written, or why the office is busy.
    pub fn view(&self) -> Result<AnswerView<'_>, Busy>
        ensures { IsViewOf result self.now.answered }
    {
        match &self.answered {
            Ok(answer) => Ok(answer.view()),
            Err(busy) => Err(*busy),
        }
    }

    /// Returns the buffer, and drops the answer.
    pub fn into_buffer(self) -> &'b mut Vec<u8>
        ensures same_reference { result.ghost_name ≡ self.entry.buffer.ghost_name }
        ensures value { result.now ≡ self.entry.buffer.now }
    {
        let Prepared { buffer, .. } = self;
        buffer
    }
}

/// Removes the message from the front of the buffer, which must have all of it, and answers it. Its head is the first
/// `size` bytes, in which the parts of `head` must lie, and its body follows. If the office is busy, the contract does
/// not say what is left in the buffer. The result borrows the buffer.
pub fn prepare<'b, M: Machine>(
    means: &Means,
    office: &mut M,
    buffer: &'b mut Vec<u8>,
    size: usize,
    head: Head,
) -> Prepared<'b>
    requires whole { size + unwrap_or head.length 0 ≤ length buffer.old.items }
    requires method { IsWithin (length (take size buffer.old.items)) head.method }
    requires target { IsWithin (length (take size buffer.old.items)) head.target }
    ensures machine { AnswersAs M.represents M.is_intact M.is_open M.recovers office.old office.new
        (λ s. spec.response s (request_in (take size buffer.old.items) head)
        (take (unwrap_or head.length 0) (drop size buffer.old.items)))
        ((request_in (take size buffer.old.items) head).method ≡ codes "POST") result.answered }
    ensures left { OnOk result.answered
        (result.buffer.now.items ≡ drop (size + unwrap_or head.length 0) buffer.old.items) }
    ensures same_reference { result.buffer.ghost_name ≡ buffer.entry.ghost_name }
{
    let answered = answer_first(means, office, buffer, size, head);
    Prepared { answered, buffer }
}
