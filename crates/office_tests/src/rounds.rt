//! Fifty rounds of every command and every question, by `apply` and `ask`. With ample memory each command is accepted,
//! and each question answered. Each round leaves one unit: over a store in memory a call takes longer with each that is
//! there. `acceptance/rounds.py` plays the same as one session, and leaves all units.

use crate::offices::{BOXES, day_after, in_memory};
use catalogue_store::{LinkPlaces, Places};
use isad_core::{Day, List, Text};
use nested_sets::SpanPlaces;
use office::Office;
use office_core::{Answer, Command, Query};
use sqlite::{Alter, MemStore};
use std::alloc::Global;
use std::process::Abort;
use std::test::Fail;

const ROUNDS: u8 = 50;

/// The last day that there is.
fn ever() -> Result<Day, Fail> {
    match Day::parse("9999-12-31") {
        Some(day) => Ok(day),
        None => Err(Fail::new("no day")),
    }
}

/// The import of four tops, from a source of its own.
fn import(alloc: Global, round: u8) -> Result<Command, Fail> {
    let source = format!(in alloc; "s{round}")?;
    Ok(Command::Import {
        source: Text::new(alloc, source.as_str())?,
        file: List(Vec::from_slice(alloc, BOXES.as_bytes())?),
    })
}

/// A command of a round in the catalogue: the first, second and so on, or none after the last.
fn in_the_catalogue(alloc: Global, round: u8, number: u8) -> Result<Option<Command>, Fail> {
    let unit = u64::from(round) * 4 + 1;
    Ok(Some(match number {
        0 => Command::OpenDay {
            day: day_after(round.saturating_add(1))?,
        },
        1 => import(alloc, round)?,
        2 => Command::SetStatus {
            unit,
            draft: false,
            branch: true,
        },
        3 => Command::SetClosure { unit, until: None },
        4 => Command::Move {
            unit: unit + 1,
            parent: Some(unit),
        },
        5 => Command::Remove { unit: unit + 3 },
        _ => return Ok(None),
    }))
}

/// A command that gives or renews the ticket of a round, or permits it a unit.
fn of_the_ticket(alloc: Global, round: u8, number: u8) -> Result<Option<Command>, Fail> {
    let ticket = u64::from(round) + 1;
    let until = ever()?;
    Ok(Some(match number {
        6 => Command::Register {
            name: Text::new(alloc, "Ann")?,
            until,
        },
        7 => Command::Renew { ticket, until },
        8 => Command::Permit {
            ticket,
            unit: u64::from(round) * 4 + 1,
            until,
        },
        _ => return Ok(None),
    }))
}

/// A command of a round at the desk, or none.
fn at_the_desk(round: u8, number: u8) -> Option<Command> {
    let ticket = u64::from(round) + 1;
    let command = match number {
        9 => Command::TakeSeat { ticket },
        10 => Command::Order {
            ticket,
            container: 1,
        },
        11 => Command::Order {
            ticket,
            container: 2,
        },
        12 => Command::Cancel {
            order: u64::from(round) * 2 + 2,
        },
        13 => Command::Run,
        14 => Command::Issue {
            container: 1,
            ticket,
        },
        15 => Command::Return { container: 1 },
        16 => Command::Reshelve,
        17 => Command::LeaveSeat { ticket },
        18 => Command::Revoke {
            ticket,
            unit: u64::from(round) * 4 + 1,
        },
        _ => return None,
    };
    Some(command)
}

/// The command of a round with this number.
fn command(alloc: Global, round: u8, number: u8) -> Result<Command, Fail> {
    if let Some(command) = in_the_catalogue(alloc, round, number)? {
        return Ok(command);
    }
    if let Some(command) = of_the_ticket(alloc, round, number)? {
        return Ok(command);
    }
    match at_the_desk(round, number) {
        Some(command) => Ok(command),
        None => Err(Fail::new("no command")),
    }
}

/// The commands of a round, each of which is accepted.
fn carried_out<P: Places, S: Alter>(
    rt: &impl Abort,
    alloc: Global,
    office: &mut Office<P, S>,
    round: u8,
) -> Result<(), Fail> {
    for number in 0..19u8 {
        let command = command(alloc, round, number)?;
        let reply = office.apply(alloc, &command)?;
        assert!(rt; reply.done.is_ok(), "command {number} of round {round}");
    }
    Ok(())
}

/// The questions of a round, each of which is answered.
fn asked<P: Places, S: Alter>(
    rt: &impl Abort,
    alloc: Global,
    office: &mut Office<P, S>,
    round: u8,
) -> Result<(), Fail> {
    let ticket = u64::from(round) + 1;
    let unit = u64::from(round) * 4 + 1;
    for query in [
        Query::Fonds,
        Query::Aid { unit },
        Query::Page { unit },
        Query::ReaderOrders { ticket },
        Query::Queue { container: 1 },
        Query::RunSlip { run: ticket },
        Query::IssuedNow,
        Query::ReaderPermits { ticket },
    ] {
        let told = office.ask(alloc, query)?;
        assert!(rt;
            !matches!(&told, Answer::Unknown(_)),
            "a question of round {round}"
        );
    }
    Ok(())
}

/// Of the units of a round the first top goes, with the one below it.
fn cleared<P: Places, S: Alter>(
    rt: &impl Abort,
    alloc: Global,
    office: &mut Office<P, S>,
    round: u8,
) -> Result<(), Fail> {
    let unit = u64::from(round) * 4 + 1;
    let reply = office.apply(alloc, &Command::Remove { unit })?;
    assert!(rt; reply.done.is_ok(), "the removal of round {round}");
    Ok(())
}

/// All rounds, and how many lines the list of tops has at the end.
fn goes_round<P: Places>(
    rt: &impl Abort,
    alloc: Global,
    office: &mut Office<P, MemStore>,
) -> Result<usize, Fail> {
    for round in 0..ROUNDS {
        carried_out(rt, alloc, office, round)?;
        asked(rt, alloc, office, round)?;
        cleared(rt, alloc, office, round)?;
    }
    match office.ask(alloc, Query::Fonds)? {
        Answer::Text(text) => Ok(
            text.as_slice()
                .iter()
                .filter(|byte| **byte == b'\n')
                .count(),
        ),
        _ => Err(Fail::new("no list")),
    }
}

fn fifty_rounds<P: Places>(rt: &impl Abort, alloc: Global) -> Result<(), Fail> {
    let mut office = in_memory::<P>(alloc)?;
    let gone = goes_round(rt, alloc, &mut office);
    let _ = office.into_connection();
    let lines = gone?;
    assert_eq!(rt; lines, usize::from(ROUNDS));
    Ok(())
}

#[test]
fn fifty_rounds_over_links(rt: HostRuntime) -> Result<(), Fail> {
    fifty_rounds::<LinkPlaces>(&rt, rt.alloc())
}

#[test]
fn fifty_rounds_over_spans(rt: HostRuntime) -> Result<(), Fail> {
    fifty_rounds::<SpanPlaces>(&rt, rt.alloc())
}
