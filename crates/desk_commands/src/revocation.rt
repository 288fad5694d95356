//! Revoking permits for closed units.

ghost use Rattle.std.specs.Prelude.{◌≡◌, true};
ghost use Rattle.catalogue_core.specs.UnitLookup.{has_unit};
ghost use Rattle.catalogue_core.specs.UnitMarks.{AreWalkMarks};
ghost use Rattle.office_core.specs.State.{is_ticket};
ghost use Rattle.office_core.specs.declared.command.Command.TheVariants as command;
ghost use Rattle.office_core.specs.AccessRestrictions.{MayRevoke};
ghost use Rattle.desk_commands.specs.SparedCatalogue.{PerformsSparing};

use crate::permits::last_day;
use access::pass_gate_near;
use catalogue_store::{Places, is_unit};
use desk_store::{is_registered, permits, revoke};
use isad_core::{Day, Number};
use known_forest::KnownForest;
use office_core::{Done, Refusal};
use office_tables::{StoreFault, Tables};
use sqlite::Alter;
use std::alloc::Global;

/// Revokes a permit that exists. The command is refused if it would close a container to the reader who has it. `known`
/// must be the marks of all units.
fn take_back<P: Places, S: Alter>(
    alloc: Global,
    tables: &mut Tables<P, S>,
    known: &KnownForest,
    today: Day,
    ticket: Number,
    unit: Number,
) -> Result<Result<Done, Refusal>, StoreFault>
    ensures { PerformsSparing P.represents P.version S.Store (λ s. (today ≡ s.day) × MayRevoke s ticket unit
        × AreWalkMarks s.catalogue.forest known.now)
        (command.Revoke ticket unit) tables.old tables.new result }
{
    revoke(tables, ticket, unit)?;
    pass_gate_near(
        alloc,
        tables,
        Some(known),
        today,
        unit,
        Done::Revoke { unit: unit.get() },
    )
}

/// Revokes a permit that may or may not exist. The ticket and the unit exist.
fn take_back_held<P: Places, S: Alter>(
    alloc: Global,
    tables: &mut Tables<P, S>,
    known: &KnownForest,
    today: Day,
    ticket: Number,
    unit: Number,
) -> Result<Result<Done, Refusal>, StoreFault>
    ensures { PerformsSparing P.represents P.version S.Store
        (λ s. (today ≡ s.day) × (is_ticket s ticket ≡ true) × (has_unit s.catalogue.forest unit ≡ true)
        × AreWalkMarks s.catalogue.forest known.now)
        (command.Revoke ticket unit) tables.old tables.new result }
{
    let held = permits(alloc, tables, ticket)?;
    let until = last_day(&held, unit);
    if until.is_none() {
        return Ok(Err(Refusal::NoPermit));
    }
    take_back(alloc, tables, known, today, ticket, unit)
}

/// Revokes a permit for a unit that may or may not exist. The ticket exists.
fn take_back_for<P: Places, S: Alter>(
    alloc: Global,
    tables: &mut Tables<P, S>,
    known: &KnownForest,
    today: Day,
    ticket: Number,
    unit: Number,
) -> Result<Result<Done, Refusal>, StoreFault>
    ensures { PerformsSparing P.represents P.version S.Store (λ s. (today ≡ s.day) × (is_ticket s ticket ≡ true)
        × AreWalkMarks s.catalogue.forest known.now)
        (command.Revoke ticket unit) tables.old tables.new result }
{
    let there = is_unit(alloc, tables, unit)?;
    if !there {
        return Ok(Err(Refusal::UnknownUnit));
    }
    take_back_held(alloc, tables, known, today, ticket, unit)
}

/// Revokes a ticket's permit for a unit, and tells the unit. The command is refused if the ticket, the unit or the
/// permit does not exist, or if it would close a container to the reader who has it. After a refusal the caller must
/// roll the transaction back, since the permit may be gone. `today` must be the office's day, and `known` the marks of
/// all its units.
pub fn revoke_permit<P: Places, S: Alter>(
    alloc: Global,
    tables: &mut Tables<P, S>,
    known: &KnownForest,
    today: Day,
    ticket: Number,
    unit: Number,
) -> Result<Result<Done, Refusal>, StoreFault>
    ensures { PerformsSparing P.represents P.version S.Store
        (λ s. (today ≡ s.day) × AreWalkMarks s.catalogue.forest known.now) (command.Revoke ticket unit)
        tables.old tables.new result }
{
    let is_there = is_registered(alloc, tables, ticket)?;
    if !is_there {
        return Ok(Err(Refusal::UnknownTicket));
    }
    take_back_for(alloc, tables, known, today, ticket, unit)
}
