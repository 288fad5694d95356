//! What a request is for. Nothing here has an office.
ghost use Rattle.std.specs.Prelude.{◌&&◌, ◌≡◌, [], length, IfOk, is_none, Some, true, codes};
ghost use Rattle.httparse.specs.Spans.{IsWithin};
ghost use Rattle.office_core.specs.State.{State};
ghost use Rattle.office_core.specs.declared.command.Command.TheVariants as commands;
ghost use Rattle.http_messages.specs.Answers as spec;
ghost use Rattle.http_messages.specs.Routes as routes;
ghost use Rattle.http_messages.specs.HeadVerdict.{request_in};
ghost use Rattle.http_messages.specs.Router.{route_in};
ghost use Rattle.http_desk.specs.Purposes.{IsNoQuestion, meaning_of};
ghost use Rattle.http_desk.specs.Runs.{carried_out};

use crate::office_call::OfficeCall;
use http_messages::answers::Answered;
use http_messages::head_verdict::Head;
use http_messages::members::command_in;
use http_messages::routes::{Route, Routes, is_method, is_post};
use http_messages::status::Status;
use http_messages::targets::path_of;
use isad_core::{List, Text};
use office_core::{Command, Query};
use std::alloc::{AllocError, Global};

/// What a request is for.
#[derive(Drop)]
pub enum Purpose {
    /// The office is to carry out this command.
    Command(Command),
    /// The office is to answer this question.
    Question(Query),
    /// The office is not asked: this is the answer.
    Nothing(Answered),
}

/// What a session needs to read requests and to ask its office: an allocator, and the routes in which paths are looked
/// up. With a `&Means` nothing else can be made of the allocator than what its methods make.
#[derive(Drop)]
pub struct Means {
    alloc: Global,
    routes: Routes,
}

/// What the command that a body gives is for: itself. If it gives none, the answer is 400.
fn purpose_if_read(command: Option<Command>) -> Purpose
    ensures means { (s : State) → carried_out s (meaning_of result) ≡ spec.done_if_read s command }
    ensures posts { IsNoQuestion result }
{
    match command {
        Some(command) => Purpose::Command(command),
        None => Purpose::Nothing(Answered::Error(Status::BadRequest)),
    }
}

/// The command of an import. The bytes of the body become the file, without a copy.
fn import_of(alloc: Global, source: &str, body: Vec<u8>) -> Result<Command, AllocError>
    ensures { IfOk result (λ made. made ≡ commands.Import source.now body.items) }
{
    let source = Text::new(alloc, source)?;
    let file = List(body);
    Ok(Command::Import { source, file })
}

fn has_no_length(head: Head) -> bool
    ensures { result ≡ is_none head.length }
{
    head.length.is_none()
}

/// Whether a length is missing that a POST needs.
fn lacks_length(post: bool, head: Head) -> bool
    ensures { result ≡ (post && is_none head.length) }
{
    post && has_no_length(head)
}

/// What a route is for, with this body.
fn purpose_of_route(alloc: Global, body: Vec<u8>, route: Route<'_>) -> Result<Purpose, AllocError>
    ensures means { IfOk result (λ purpose. (s : State) → carried_out s (meaning_of purpose)
        ≡ spec.route_carried_out s body.items (route_in route.entry)) }
    ensures posts { IfOk result (λ purpose. routes.is_post (route_in route.entry) ≡ true → IsNoQuestion purpose) }
{
    match route {
        Route::Asks(query) => Ok(Purpose::Question(query)),
        Route::Run => Ok(Purpose::Command(Command::Run)),
        Route::Reshelve => Ok(Purpose::Command(Command::Reshelve)),
        Route::TakesFile(source) => match import_of(alloc, source, body) {
            Ok(command) => Ok(Purpose::Command(command)),
            Err(e) => Err(e),
        },
        Route::TakesForm(form) => match command_in(alloc, form, &body) {
            Ok(command) => Ok(purpose_if_read(command)),
            Err(e) => Err(e),
        },
    }
}

/// What a request with this route is for.
fn purpose_by_route(
    alloc: Global,
    block: &[u8],
    head: Head,
    body: Vec<u8>,
    route: Route<'_>,
) -> Result<Purpose, AllocError>
    requires { IsWithin (length block.now) head.method }
    ensures means { IfOk result (λ purpose. (s : State) → carried_out s (meaning_of purpose)
        ≡ spec.by_route s (request_in block.now head) body.items (Some (route_in route.entry))) }
    ensures posts { IfOk result (λ purpose. (request_in block.now head).method ≡ codes "POST"
        → IsNoQuestion purpose) }
{
    let post = is_post(route);
    if !is_method(head.method.of(block), post) {
        return Ok(Purpose::Nothing(Answered::NotAllowed(post)));
    }
    if lacks_length(post, head) {
        return Ok(Purpose::Nothing(Answered::Error(Status::LengthRequired)));
    }
    purpose_of_route(alloc, body, route)
}

impl Means {
    /// The means of a session, with this allocator. Fails if there is no memory for the routes.
    pub fn new(alloc: Global) -> Result<Means, AllocError> {
        let routes = Routes::new(alloc)?;
        Ok(Means { alloc, routes })
    }

    /// An empty buffer. A session makes one at its beginning. With a `&Means` no buffer can be made.
    pub fn empty_buffer(&mut self) -> Vec<u8>
        ensures { result.items ≡ [] }
    {
        Vec::new(self.alloc)
    }

    /// Leave to ask the office once.
    pub fn office_call(&self) -> OfficeCall {
        OfficeCall::new(self.alloc)
    }

    /// What a request is for whose body is complete. `block` has the bytes of its head, in which `head` lies. Carrying
    /// out the purpose gives the answer to the request, in every state. A POST is never for a question; if it is not
    /// for a command either, its answer is not 200.
    pub fn purpose(&self, block: &[u8], head: Head, body: Vec<u8>) -> Result<Purpose, AllocError>
        requires method { IsWithin (length block.now) head.method }
        requires target { IsWithin (length block.now) head.target }
        ensures means { IfOk result (λ purpose. (s : State) → carried_out s (meaning_of purpose)
            ≡ spec.response s (request_in block.now head) body.items) }
        ensures posts { IfOk result (λ purpose. (request_in block.now head).method ≡ codes "POST"
            → IsNoQuestion purpose) }
    {
        match self.routes.route_of(path_of(head.target.of(block))) {
            None => Ok(Purpose::Nothing(Answered::Error(Status::NotFound))),
            Some(route) => purpose_by_route(self.alloc, block, head, body, route),
        }
    }
}
