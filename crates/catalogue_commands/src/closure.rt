//! Closes units, and ends their closure.

ghost use Rattle.std.specs.Prelude.{◌≡◌, true, option_copied};
ghost use Rattle.catalogue_core.specs.UnitLookup.{has_unit};
ghost use Rattle.visibility.specs.Marks.{is_later};
ghost use Rattle.catalogue_core.specs.GoodCatalogues.{IsSomeDay};
ghost use Rattle.known_units.specs.KnownUnits.{TellOf};
ghost use Rattle.known_units.specs.declared.changes.UnitChange.TheVariants as change;
ghost use Rattle.office_core.specs.declared.command.Command.TheVariants as command;
ghost use Rattle.refinement.specs.CommandSteps.{PerformsKnowing};

use access::pass_gate_changed;
use catalogue_store::{Places, is_unit, set_closure};
use isad_core::{Day, Number};
use known_forest::KnownForest;
use known_units::UnitChange;
use office_core::{Done, Refusal};
use office_tables::{StoreFault, Tables};
use sqlite::Alter;
use std::alloc::Global;

/// Whether a closure lasts beyond this day. Its day, if it has one, is one of the calendar.
fn lasts_beyond(until: &Option<Day>, today: Day) -> bool
    ensures lasts { result ≡ is_later today until.now }
    ensures calendar { IsSomeDay until.now }
{
    match until {
        None => false,
        Some(until) => today.number() < until.number(),
    }
}

/// The change of a unit that a closure makes.
fn closure_of(until: &Option<Day>) -> UnitChange
    ensures { result ≡ change.Closure until.now }
{
    UnitChange::Closure { until: *until }
}

/// Closes a unit that exists or ends its closure, or refuses if this would close a container to the reader who has it.
/// A closure that is not in force today closes none. `known`, if given, must be the marks of all units.
fn close_known<P: Places, S: Alter>(
    alloc: Global,
    tables: &mut Tables<P, S>,
    known: Option<&KnownForest>,
    today: Day,
    unit: Number,
    until: Option<Day>,
    is_in_force: bool,
) -> Result<Result<Done, Refusal>, StoreFault>
    requires calendar { IsSomeDay until }
    requires lasts { is_in_force ≡ is_later today until }
    ensures { PerformsKnowing P.represents P.version S.Store
        (λ s. (today ≡ s.day) × (has_unit s.catalogue.forest unit ≡ true)
        × TellOf s.catalogue (option_copied known.entry)) (command.SetClosure unit until)
        tables.old tables.new result }
{
    let change = closure_of(&until);
    set_closure(tables, unit, until)?;
    let done = Done::SetClosure { unit: unit.get() };
    if !is_in_force {
        return Ok(Ok(done));
    }
    pass_gate_changed(alloc, tables, known, today, unit, change, done)
}

/// Closes a unit until a day, or ends its closure, and tells the unit. Refuses if there is no such unit, or if this
/// would close a container to the reader who has it. After a refusal the caller must roll the transaction back. `today`
/// must be the office's day, and `known`, if given, the marks of all its units.
pub fn change_closure<P: Places, S: Alter>(
    alloc: Global,
    tables: &mut Tables<P, S>,
    known: Option<&KnownForest>,
    today: Day,
    unit: Number,
    until: Option<Day>,
) -> Result<Result<Done, Refusal>, StoreFault>
    ensures { PerformsKnowing P.represents P.version S.Store
        (λ s. (today ≡ s.day) × TellOf s.catalogue (option_copied known.entry)) (command.SetClosure unit until)
        tables.old tables.new result }
{
    let is_there = is_unit(alloc, tables, unit)?;
    if !is_there {
        return Ok(Err(Refusal::UnknownUnit));
    }
    let is_in_force = lasts_beyond(&until, today);
    close_known(alloc, tables, known, today, unit, until, is_in_force)
}
