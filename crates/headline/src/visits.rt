//! Visits to an office: sessions and calls.

ghost use Rattle.http_desk.specs.Runs.{CallsNameDays, CallsNameTexts, IsVisited, Visit as Happening};
ghost use Rattle.office_core.specs.SoundOffice.{NamesTexts};
ghost use Rattle.office_core.specs.Soundness.{NamesDays};
ghost use Rattle.nested_sets.specs.Representation.{RepresentsSpanRows};
ghost use Rattle.office.specs.IdleOffice.{has_clean_disk, is_shown, is_still_open};
ghost use Rattle.office_tables.specs.Versions.{Second};
ghost use Rattle.headline.specs.Headline.{IsVisitedOver, TheHeadline};
ghost use Rattle.headline.specs.Visits.{IsConversation, IsHeld, IsMade, IsPut, IsTold, WereMade};

use http_desk::session::talk;
use http_desk::session_end::Ended;
use http_desk::streams::{Sink, Source};
use nested_sets::SpanPlaces;
use office::{Answer, Busy, Command, Machine, Office, Query, Reply, names_days_and_texts};
use sqlite::Alter;
use std::alloc::Global;
use std::io::{Read, Write};

/// A session by HTTP with a peer. Requests come from the reader, and answers go to the writer.
#[derive(Drop)]
pub struct SessionVisit<R, W> {
    pub reader: R,
    pub writer: W,
    /// How it ended, or `None` before it was held.
    pub ended: Option<Ended>,
}

/// A command that is called.
#[derive(Drop)]
pub struct CommandVisit {
    pub command: Command,
    /// What the office replied, or `None` before the call.
    pub told: Option<Result<Reply, Busy>>,
}

/// A question that is called.
#[derive(Drop)]
pub struct QuestionVisit {
    pub query: Query,
    /// What the office answered, or `None` before the call.
    pub told: Option<Result<Answer, Busy>>,
}

/// A session or a call.
#[derive(Drop)]
pub enum Visit<R, W> {
    Session(SessionVisit<R, W>),
    Command(CommandVisit),
    Question(QuestionVisit),
}

/// Holds a session with the peer of this reader and this writer. Returns how it ended.
fn converse<M: Machine, R: Read, W: Write>(
    alloc: Global,
    office: &mut M,
    reader: &mut R,
    writer: &mut W,
) -> Ended
    ensures { IsConversation R.remaining W.contents M.represents M.is_intact M.is_open reader.old reader.new
        writer.old writer.new result office.old office.new }
{
    let mut source = Source::new(reader);
    let mut sink = Sink::new(writer);
    let ended = talk(alloc, &mut source, &mut sink, office);
    let _reader = source.into_reader();
    let _writer = sink.into_writer();
    ended
}

/// Holds the session, and notes how it ended.
fn hold<M: Machine, R: Read, W: Write>(
    alloc: Global,
    office: &mut M,
    session: &mut SessionVisit<R, W>,
)
    ensures { (happened : Happening) × IsHeld R.remaining W.contents session.old session.new happened
        × IsVisited M.represents M.is_intact M.is_open office.old office.new happened }
{
    session.ended = Some(converse(alloc, office, &mut session.reader, &mut session.writer));
}

/// Calls the command, and notes what was replied.
fn put<S: Alter>(alloc: Global, office: &mut Office<SpanPlaces, S>, call: &mut CommandVisit)
    ensures put { (happened : Happening) × IsPut call.old call.new happened
        × IsVisitedOver S.Store office.old office.new happened }
    ensures days { NamesDays call.old.command }
    ensures texts { NamesTexts call.old.command }
{
    names_days_and_texts(&call.command);
    call.told = Some(office.apply(alloc, &call.command));
}

/// Calls the question, and notes what was answered.
fn ask<S: Alter>(alloc: Global, office: &mut Office<SpanPlaces, S>, call: &mut QuestionVisit)
    ensures { (happened : Happening) × IsTold call.old call.new happened
        × IsVisitedOver S.Store office.old office.new happened }
{
    call.told = Some(office.ask(alloc, call.query));
}

/// Makes one visit, and notes how it went.
fn make_visit<S: Alter, R: Read, W: Write>(
    alloc: Global,
    office: &mut Office<SpanPlaces, S>,
    visit: &mut Visit<R, W>,
)
    ensures { (happened : Happening) × IsMade R.remaining W.contents visit.old visit.new happened
        × IsVisitedOver S.Store office.old office.new happened × CallsNameDays happened × CallsNameTexts happened }
{
    match visit {
        Visit::Session(session) => hold(alloc, office, session),
        Visit::Command(call) => put(alloc, office, call),
        Visit::Question(call) => ask(alloc, office, call),
    }
}

/// Makes the visits, one after the other, and notes in each how it went.
fn make_all<S: Alter, R: Read, W: Write>(
    alloc: Global,
    office: &mut Office<SpanPlaces, S>,
    visits: &mut [Visit<R, W>],
)
    ensures { WereMade R.remaining W.contents (is_shown S.Store RepresentsSpanRows Second) (has_clean_disk S.Store)
        (is_still_open S.Store) visits.old visits.new office.old office.new }
{
    for visit in visits.iter_mut() {
        make_visit(alloc, office, visit);
    }
}

/// Makes the visits, one after the other, and notes in each how it went. This is the headline: the office's tables and
/// the bytes of all answers are those of the machine of description trees and container queues.
pub fn make_visits<S: Alter, R: Read, W: Write>(
    alloc: Global,
    office: &mut Office<SpanPlaces, S>,
    visits: &mut [Visit<R, W>],
)
    ensures { TheHeadline S.Store R.remaining W.contents office.old office.new visits.old visits.new }
{
    make_all(alloc, office, visits);
}
