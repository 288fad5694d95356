//! Granting permits for closed units.

ghost use Rattle.std.specs.Prelude.{◌≡◌, ◌&&◌, true, not, is_some, length, nat_le, ⊤};
ghost use Rattle.isad_core.specs.Limits.{most_permits};
ghost use Rattle.catalogue_core.specs.UnitLookup.{has_unit};
ghost use Rattle.office_core.specs.State.{is_ticket};
ghost use Rattle.office_core.specs.declared.command.Command.TheVariants as command;
ghost use Rattle.desk_commands.specs.Permits.{MayPermit, later_of, until_for};
ghost use Rattle.desk_commands.specs.SparedCatalogue.{PerformsSparing};

use catalogue_store::{Places, is_unit};
use desk_store::{Permit, grant, is_registered, permits};
use isad_core::{Day, Number, limits};
use office_core::{Done, Refusal};
use office_tables::{StoreFault, Tables};
use sqlite::Alter;
use std::alloc::Global;

/// How many permits a ticket may have.
const MOST_PERMITS: usize = limits::MOST_PERMITS as usize;

/// The last day of the permit for a unit, or none if there is no permit.
pub(crate) fn last_day(held: &[Permit], unit: Number) -> Option<Day>
    ensures { result ≡ until_for unit held.now }
{
    held.iter()
        .find(|permit| permit.unit == unit)
        .map(|permit| permit.until)
}

/// The later of the last day of the permit, if there is one, and the day that is asked for.
fn later(held: Option<Day>, asked: Day) -> Day
    ensures { result ≡ later_of held asked }
{
    match held {
        Some(day) if asked < day => day,
        _ => asked,
    }
}

/// Whether the ticket has no permit for the unit, but as many permits for other units as it may have.
fn is_full(held: &[Permit], unit: Number) -> bool
    ensures { result ≡ (not (is_some (until_for unit held.now)) && nat_le most_permits (length held.now)) }
{
    last_day(held, unit).is_none() && held.len() >= MOST_PERMITS
}

/// Grants a permit that is known to be allowed. `until` is its last day: the day asked for, or a later one that was
/// granted before.
fn give<P: Places, S: Alter>(
    tables: &mut Tables<P, S>,
    ticket: Number,
    unit: Number,
    asked: Day,
    until: Day,
) -> Result<Result<Done, Refusal>, StoreFault>
    ensures { PerformsSparing P.represents P.version S.Store (λ s. MayPermit s ticket unit asked until)
        (command.Permit ticket unit asked) tables.old tables.new result }
{
    grant(tables, ticket, unit, until)?;
    Ok(Ok(Done::Permit {
        ticket: ticket.get(),
        unit: unit.get(),
        until,
    }))
}

/// Grants a permit if the ticket has one for the unit or may have one more. The ticket and the unit exist.
fn give_within<P: Places, S: Alter>(
    alloc: Global,
    tables: &mut Tables<P, S>,
    ticket: Number,
    unit: Number,
    asked: Day,
) -> Result<Result<Done, Refusal>, StoreFault>
    ensures { PerformsSparing P.represents P.version S.Store
        (λ s. (is_ticket s ticket ≡ true) × (has_unit s.catalogue.forest unit ≡ true))
        (command.Permit ticket unit asked) tables.old tables.new result }
{
    let held = permits(alloc, tables, ticket)?;
    if is_full(&held, unit) {
        return Ok(Err(Refusal::Full));
    }
    let until = later(last_day(&held, unit), asked);
    give(tables, ticket, unit, asked, until)
}

/// Grants a permit for a unit that may or may not exist. The ticket exists.
fn give_for<P: Places, S: Alter>(
    alloc: Global,
    tables: &mut Tables<P, S>,
    ticket: Number,
    unit: Number,
    asked: Day,
) -> Result<Result<Done, Refusal>, StoreFault>
    ensures { PerformsSparing P.represents P.version S.Store (λ s. is_ticket s ticket ≡ true)
        (command.Permit ticket unit asked) tables.old tables.new result }
{
    let there = is_unit(alloc, tables, unit)?;
    if !there {
        return Ok(Err(Refusal::UnknownUnit));
    }
    give_within(alloc, tables, ticket, unit, asked)
}

/// Grants a ticket a permit for a unit up to a day, and tells the permit. If the ticket has one up to a later day, that
/// later day remains. The command is refused if the ticket or the unit does not exist, or if this would be a new permit
/// and the ticket has the most that it may have, expired ones too. After a refusal the caller must roll the transaction
/// back.
pub fn permit<P: Places, S: Alter>(
    alloc: Global,
    tables: &mut Tables<P, S>,
    ticket: Number,
    unit: Number,
    until: Day,
) -> Result<Result<Done, Refusal>, StoreFault>
    ensures { PerformsSparing P.represents P.version S.Store (λ _. ⊤) (command.Permit ticket unit until)
        tables.old tables.new result }
{
    let known = is_registered(alloc, tables, ticket)?;
    if !known {
        return Ok(Err(Refusal::UnknownTicket));
    }
    give_for(alloc, tables, ticket, unit, until)
}
