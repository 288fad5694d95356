//! After a change within a branch of units, nothing that is out may be withheld from the reader who has it. Such a
//! change can only withhold containers in which a unit of the branch lies, so only these are checked.

ghost use Rattle.std.specs.Prelude.{◌≡◌, ◌≤◌, IfOk, IsSome, length, option_copied};
ghost use Rattle.desk_store.specs.Holdings.{issued_of};
ghost use Rattle.state_encoding.specs.OfficeRows.{tables as tables_of};
ghost use Rattle.office_tables.specs.Calls.{Answers};
ghost use Rattle.office_tables.specs.Premises.{◌within◌gives◌};
ghost use Rattle.catalogue_core.specs.CatalogueMerge.{Catalogue};
ghost use Rattle.known_units.specs.UnitChanges.{changed_by};
ghost use Rattle.access.specs.Gate.{AreAsked, AreEnough, AreNear, IsAfter, OthersAreOpen, gate_reply};
ghost use Rattle.known_units.specs.KnownUnits.{KnowsIf, TellOf};
ghost use Rattle.refinement.specs.AccessConditions.{CanBeJudged, RepresentsWhole};

use crate::gate::first_closed;
use crate::housed_units::{containers_around, containers_of_each};
use catalogue_store::Places;
use desk_store::{ContainerOrder, is_some_out, issued_among};
use isad_core::{Day, Number};
use known_forest::KnownForest;
use known_units::{UnitChange, with_change};
use office_core::{Done, Refusal};
use office_tables::{StoreFault, Tables};
use sqlite::Alter;
use std::alloc::{AllocError, Global};

/// The containers in which the unit or one below it lies, in any order and perhaps more than once.
fn containers_near<P: Places, S: Alter>(
    alloc: Global,
    tables: &mut Tables<P, S>,
    unit: Number,
) -> Result<Vec<Number>, StoreFault>
    ensures answers { Answers S.Store (RepresentsWhole P.represents P.version) tables.old tables.new result
        within CanBeJudged gives λ _ s found. AreNear unit s found.items }
{
    let branch = P::branch(alloc, tables, unit)?;
    let mut containers = containers_of_each(alloc, tables, &branch)?;
    let around = containers_around(alloc, tables, unit)?;
    containers.extend_from_slice(&around)?;
    Ok(containers)
}

/// The loans that must be checked after a change near the unit, by number of the container. A loan is a container that
/// is out, with its order. They are the loans of containers in which the unit or one below it lies.
pub fn loans_near<P: Places, S: Alter>(
    alloc: Global,
    tables: &mut Tables<P, S>,
    unit: Number,
) -> Result<Vec<ContainerOrder>, StoreFault>
    ensures answers { Answers S.Store (RepresentsWhole P.represents P.version) tables.old tables.new result
        within CanBeJudged gives λ _ s found. AreAsked unit s (issued_of (tables_of P.version s).desk) found.items }
{
    if !is_some_out(alloc, tables)? {
        return Ok(Vec::new(alloc));
    }
    let mut containers = containers_near(alloc, tables, unit)?;
    containers.sort_unstable();
    containers.dedup();
    let loans = issued_among(alloc, tables, &containers)?;
    Ok(loans)
}

/// The outcome of a change that the tables already show: `done`, or the refusal `WithReader` with the container of the
/// first of these loans that is not open today to the reader who has it. `today` must be the office's day. `known`, if
/// given, must be the marks of all units after the change. The loans must be enough: the lowest container of all that is
/// out and not open to its reader must be the first such among them.
pub fn pass_gate_with<P: Places, S: Alter>(
    alloc: Global,
    tables: &mut Tables<P, S>,
    known: Option<&KnownForest>,
    today: Day,
    loans: &[ContainerOrder],
    done: Done,
) -> Result<Result<Done, Refusal>, StoreFault>
    ensures answers { Answers S.Store (RepresentsWhole P.represents P.version) tables.old tables.new result
        within CanBeJudged
        gives λ _ s reply. CanBeJudged s → today ≡ s.day
        → AreEnough loans.now s × TellOf s.catalogue (option_copied known.entry) → reply ≡ gate_reply s done }
{
    match first_closed(alloc, tables, known, loans, today)? {
        Some(container) => Ok(Err(Refusal::WithReader { container })),
        None => Ok(Ok(done)),
    }
}

/// The outcome of a change that the tables already show: `done`, or the refusal `WithReader` with the lowest container
/// that is out and not open today to the reader who has it. `today` must be the office's day. `known`, if given, must be
/// the marks of all units after the change; otherwise they are read if a loan must be checked. The change must affect
/// only the unit and those below it: each container that is out and in which none of these lies must be open to its
/// reader.
pub fn pass_gate_near<P: Places, S: Alter>(
    alloc: Global,
    tables: &mut Tables<P, S>,
    known: Option<&KnownForest>,
    today: Day,
    unit: Number,
    done: Done,
) -> Result<Result<Done, Refusal>, StoreFault>
    ensures answers { Answers S.Store (RepresentsWhole P.represents P.version) tables.old tables.new result
        within CanBeJudged
        gives λ _ s reply. CanBeJudged s → today ≡ s.day
        → OthersAreOpen unit s × TellOf s.catalogue (option_copied known.entry) → reply ≡ gate_reply s done }
{
    let near = loans_near(alloc, tables, unit)?;
    pass_gate_with(alloc, tables, known, today, &near, done)
}

/// The marks of all units after a change of one, if there are loans to check and the marks before it are known.
fn marks_after(
    known: Option<&KnownForest>,
    loans: &[ContainerOrder],
    unit: Number,
    change: UnitChange,
) -> Result<Option<KnownForest>, AllocError>
    ensures told { IfOk result (λ after. (c : Catalogue) → KnowsIf c (option_copied known.entry)
        → KnowsIf (changed_by change unit c) after) }
    ensures given { IsSome (option_copied known.entry) → 1 ≤ length loans.now → IfOk result IsSome }
{
    let Some(known) = known else {
        return Ok(None);
    };
    if loans.is_empty() {
        return Ok(None);
    }
    Ok(Some(with_change(known, unit, change)?))
}

/// The outcome of a change of the unit that the tables already show: `done`, or the refusal `WithReader` with the lowest
/// container that is out and not open today to the reader who has it. `today` must be the office's day. `known`, if given,
/// must be the marks of all units before the change; otherwise those after it are read if a loan must be checked. As in
/// `pass_gate_near`, the change must affect only the unit and those below it.
pub fn pass_gate_changed<P: Places, S: Alter>(
    alloc: Global,
    tables: &mut Tables<P, S>,
    known: Option<&KnownForest>,
    today: Day,
    unit: Number,
    change: UnitChange,
    done: Done,
) -> Result<Result<Done, Refusal>, StoreFault>
    ensures answers { Answers S.Store (RepresentsWhole P.represents P.version) tables.old tables.new result
        within CanBeJudged
        gives λ _ s reply. CanBeJudged s → today ≡ s.day
        → OthersAreOpen unit s × IsAfter change unit (option_copied known.entry) s → reply ≡ gate_reply s done }
{
    let near = loans_near(alloc, tables, unit)?;
    let after = marks_after(known, &near, unit, change)?;
    pass_gate_with(alloc, tables, after.as_ref(), today, &near, done)
}
