//! Calls of an office, and the bytes of its answers. If memory is refused nothing is changed, and the same call, tried
//! again, is answered as usual.

use crate::offices::day_after;
use catalogue_store::Places;
use isad_core::{List, Text};
use office::Office;
use office_core::{Answer, Busy, Command, Query, Reply};
use sqlite::Alter;
use std::alloc::Global;
use std::process::Abort;
use std::test::Fail;

/// A call to the office.
#[derive(Clone, Copy)]
pub(crate) enum Said {
    NextDay,
    /// The text of a file, from source `a`.
    Import(&'static str),
    /// Publishes a unit with all below it.
    Publish(u64),
    /// Closes a unit for a month.
    Close(u64),
    Reopen(u64),
    Move(u64, Option<u64>),
    Remove(u64),
    Register,
    /// Renews a ticket for a month.
    Renew(u64),
    /// Permits a ticket to see a unit for a month.
    Permit(u64, u64),
    Revoke(u64, u64),
    Sit(u64),
    Leave(u64),
    Order(u64, u64),
    Cancel(u64),
    Run,
    Issue(u64, u64),
    Return(u64),
    Reshelve,
    Ask(Query),
}

/// A call, and the bytes of the expected answer.
pub(crate) type Step = (Said, &'static str);

fn import(alloc: Global, file: &str) -> Result<Command, Fail> {
    Ok(Command::Import {
        source: Text::new(alloc, "a")?,
        file: List(Vec::from_slice(alloc, file.as_bytes())?),
    })
}

fn register(alloc: Global) -> Result<Command, Fail> {
    Ok(Command::Register {
        name: Text::new(alloc, "Ann")?,
        until: day_after(30)?,
    })
}

/// The command of a call. A question has none.
fn command(alloc: Global, said: Said) -> Result<Command, Fail> {
    Ok(match said {
        Said::NextDay => Command::OpenDay { day: day_after(1)? },
        Said::Import(file) => import(alloc, file)?,
        Said::Publish(unit) => Command::SetStatus {
            unit,
            draft: false,
            branch: true,
        },
        Said::Close(unit) => Command::SetClosure {
            unit,
            until: Some(day_after(30)?),
        },
        Said::Reopen(unit) => Command::SetClosure { unit, until: None },
        Said::Move(unit, parent) => Command::Move { unit, parent },
        Said::Remove(unit) => Command::Remove { unit },
        Said::Register => register(alloc)?,
        Said::Renew(ticket) => Command::Renew {
            ticket,
            until: day_after(30)?,
        },
        Said::Permit(ticket, unit) => Command::Permit {
            ticket,
            unit,
            until: day_after(30)?,
        },
        Said::Revoke(ticket, unit) => Command::Revoke { ticket, unit },
        at_desk => match desk_command(at_desk) {
            Some(command) => command,
            None => return Err(Fail::new("no command")),
        },
    })
}

/// The command on seats, orders and containers, or none if the call is not one of these.
fn desk_command(said: Said) -> Option<Command> {
    let command = match said {
        Said::Sit(ticket) => Command::TakeSeat { ticket },
        Said::Leave(ticket) => Command::LeaveSeat { ticket },
        Said::Order(ticket, container) => Command::Order { ticket, container },
        Said::Cancel(order) => Command::Cancel { order },
        Said::Issue(container, ticket) => Command::Issue { container, ticket },
        Said::Return(container) => Command::Return { container },
        Said::Reshelve => Command::Reshelve,
        Said::Run => Command::Run,
        _ => return None,
    };
    Some(command)
}

/// Carries out a command. If memory runs out, nothing is changed, so the command is tried once more.
fn apply<P: Places, S: Alter>(
    alloc: Global,
    office: &mut Office<P, S>,
    command: &Command,
) -> Result<Reply, Busy> {
    match office.apply(alloc, command) {
        Err(Busy::Memory) => office.apply(alloc, command),
        reply => reply,
    }
}

fn ask<P: Places, S: Alter>(
    alloc: Global,
    office: &mut Office<P, S>,
    query: Query,
) -> Result<Answer, Busy> {
    match office.ask(alloc, query) {
        Err(Busy::Memory) => office.ask(alloc, query),
        answer => answer,
    }
}

/// The bytes of the answer.
fn bytes_of(answer: Answer) -> Result<List<u8>, Fail> {
    match answer {
        Answer::Text(text) => Ok(text),
        Answer::Json(text) => Ok(text),
        Answer::Unknown(refusal) => Err(Fail::from(refusal)),
    }
}

pub(crate) fn all_rows<P: Places, S: Alter>(
    alloc: Global,
    office: &mut Office<P, S>,
    said: Said,
) -> Result<List<u8>, Fail> {
    if let Said::Ask(query) = said {
        let answer = ask(alloc, office, query)?;
        return bytes_of(answer);
    }
    let command = command(alloc, said)?;
    let reply = apply(alloc, office, &command)?;
    Ok(reply.json)
}

/// Makes the calls, one after the other, and checks the answers.
pub(crate) fn goes<P: Places, S: Alter>(
    rt: &impl Abort,
    alloc: Global,
    office: &mut Office<P, S>,
    steps: &[Step],
) -> Result<(), Fail> {
    for &(said, wanted) in steps {
        let text = all_rows(alloc, office, said)?;
        assert_eq!(rt; text.as_slice(), wanted.as_bytes());
    }
    Ok(())
}
