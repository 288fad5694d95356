//! Makes units drafts, or publishes them.

ghost use Rattle.std.specs.Prelude.{◌≡◌, true, option_copied};
ghost use Rattle.catalogue_core.specs.UnitLookup.{has_unit};
ghost use Rattle.known_units.specs.KnownUnits.{TellOf};
ghost use Rattle.office_core.specs.declared.command.Command.TheVariants as command;
ghost use Rattle.refinement.specs.CommandSteps.{PerformsKnowing};

use access::pass_gate_changed;
use catalogue_store::{Places, is_unit, set_status};
use isad_core::{Day, Number};
use known_forest::KnownForest;
use known_units::UnitChange;
use office_core::{Done, Refusal};
use office_tables::{StoreFault, Tables};
use sqlite::Alter;
use std::alloc::Global;

/// Makes a unit that exists a draft or publishes it, alone or with all below it, or refuses if this would close a
/// container to the reader who has it. What is published closes none. `known`, if given, must be the marks of all units.
fn set_known<P: Places, S: Alter>(
    alloc: Global,
    tables: &mut Tables<P, S>,
    known: Option<&KnownForest>,
    today: Day,
    unit: Number,
    draft: bool,
    whole: bool,
) -> Result<Result<Done, Refusal>, StoreFault>
    ensures { PerformsKnowing P.represents P.version S.Store
        (λ s. (today ≡ s.day) × (has_unit s.catalogue.forest unit ≡ true)
        × TellOf s.catalogue (option_copied known.entry)) (command.SetStatus unit draft whole)
        tables.old tables.new result }
{
    let units = set_status(alloc, tables, unit, draft, whole)?;
    let done = Done::SetStatus { units };
    if !draft {
        return Ok(Ok(done));
    }
    let change = UnitChange::Status { draft, whole };
    pass_gate_changed(alloc, tables, known, today, unit, change, done)
}

/// Makes a unit a draft, or publishes it, alone or with all below it. Tells how many units these are, also those that
/// had the status. Refuses if there is no such unit, or if this would close a container to the reader who has it. After
/// a refusal the caller must roll the transaction back. `today` must be the office's day, and `known`, if given, the marks
/// of all its units.
pub fn change_status<P: Places, S: Alter>(
    alloc: Global,
    tables: &mut Tables<P, S>,
    known: Option<&KnownForest>,
    today: Day,
    unit: Number,
    draft: bool,
    whole: bool,
) -> Result<Result<Done, Refusal>, StoreFault>
    ensures { PerformsKnowing P.represents P.version S.Store
        (λ s. (today ≡ s.day) × TellOf s.catalogue (option_copied known.entry)) (command.SetStatus unit draft whole)
        tables.old tables.new result }
{
    let is_there = is_unit(alloc, tables, unit)?;
    if !is_there {
        return Ok(Err(Refusal::UnknownUnit));
    }
    set_known(alloc, tables, known, today, unit, draft, whole)
}
