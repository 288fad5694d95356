//! Making runs, which bring containers to the desk.

ghost use Rattle.std.specs.Prelude.{◌≡◌, ◌++◌, false, map, take, IfOk};
ghost use Rattle.catalogue_core.specs.UnitMarks.{AreWalkMarks};
ghost use Rattle.desk_store.specs.Holdings.{on_shelf as those_on_shelf};
ghost use Rattle.desk_store.specs.declared.container_orders.ContainerOrder.{ContainerOrder as Taken};
ghost use Rattle.office_core.specs.Words.{is_empty};
ghost use Rattle.office_core.specs.declared.command.Command.TheVariants as command;
ghost use Rattle.office_tables.specs.Calls.{Answers};
ghost use Rattle.office_tables.specs.Premises.{◌within◌gives◌};
ghost use Rattle.state_encoding.specs.OfficeRows.{tables as rows_of};
ghost use Rattle.access.specs.Openness.{open_ones};
ghost use Rattle.refinement.specs.ReadingRoomLimits.{limits_of};
ghost use Rattle.refinement.specs.AccessConditions.{CanBeJudged, RepresentsWhole};
ghost use Rattle.desk_commands.specs.RunCreation.{open_orders, taken_by};
ghost use Rattle.desk_commands.specs.SparedCatalogue.{PerformsSparing};

use crate::container_moves::move_all;
use crate::emptiness::are_none;
use access::{is_open_today, open_today};
use catalogue_store::Places;
use desk_core::{Limits, Place};
use desk_store::{ContainerOrder, first_orders, on_shelf, record_run};
use isad_core::{Day, Number};
use known_forest::KnownForest;
use office_core::{Done, Refusal};
use office_tables::{StoreFault, Tables};
use sqlite::Alter;
use std::alloc::{AllocError, Global};

/// The first `most` of the orders that were found first and of those of `waiting` whose containers are open to their
/// readers. `known` must be the marks of all units.
fn found_and_open<P: Places, S: Alter>(
    alloc: Global,
    tables: &mut Tables<P, S>,
    known: &KnownForest,
    today: Day,
    most: u32,
    first: Vec<ContainerOrder>,
    waiting: &[ContainerOrder],
) -> Result<Vec<ContainerOrder>, StoreFault>
    ensures answers { Answers S.Store (RepresentsWhole P.represents P.version) tables.old tables.new result
        within CanBeJudged gives λ _ s due. CanBeJudged s → today ≡ s.day → AreWalkMarks s.catalogue.forest known.now
        → due.items ≡ take most (first.items ++ open_ones s waiting.now) }
{
    let mut due = first;
    let mut place = 0;
    while place < waiting.len() && due.len() < most as usize {
        let order = waiting[place];
        if is_open_today(alloc, tables, known, order.container, order.ticket, today)? {
            due.push(order)?;
        }
        place += 1;
    }
    due.truncate(most as usize);
    Ok(due)
}

/// The first `most` of these orders whose containers are on the shelf and open to their readers. As many orders as a
/// run takes are looked at first: often they are enough. `known` must be the marks of all units.
fn first_open<P: Places, S: Alter>(
    alloc: Global,
    tables: &mut Tables<P, S>,
    known: &KnownForest,
    today: Day,
    most: u32,
    waiting: &[ContainerOrder],
) -> Result<Vec<ContainerOrder>, StoreFault>
    ensures answers { Answers S.Store (RepresentsWhole P.represents P.version) tables.old tables.new result
        within CanBeJudged gives λ _ s due. CanBeJudged s → today ≡ s.day → AreWalkMarks s.catalogue.forest known.now
        → due.items ≡ open_orders s most (those_on_shelf (rows_of P.version s).desk waiting.now) }
{
    let end = waiting.len().min(most as usize);
    let near = on_shelf(alloc, tables, &waiting[..end])?;
    let found = open_today(alloc, tables, known, &near, today)?;
    if found.len() == most as usize {
        return Ok(found);
    }
    let far = on_shelf(alloc, tables, &waiting[end..])?;
    let due = found_and_open(alloc, tables, known, today, most, found, &far)?;
    Ok(due)
}

/// The containers of these orders.
fn containers_of(alloc: Global, due: &[ContainerOrder]) -> Result<Vec<Number>, AllocError>
    ensures { IfOk result (λ all. all.items ≡ map (λ (o : Taken). o.container) due.now) }
{
    due.iter().map(|order| order.container).collect(alloc)
}

/// Records a run that takes these orders, and brings their containers to the desk.
fn bring<P: Places, S: Alter>(
    tables: &mut Tables<P, S>,
    today: Day,
    due: &[ContainerOrder],
    containers: &[Number],
) -> Result<Result<Done, Refusal>, StoreFault>
    requires theirs { containers.now ≡ map (λ (o : Taken). o.container) due.now }
    ensures { PerformsSparing P.represents P.version S.Store
        (λ s. (today ≡ s.day) × (due.now ≡ taken_by P.version s) × (is_empty due.now ≡ false)) command.Run
        tables.old tables.new result }
{
    let Some(run) = record_run(tables, today, due)? else {
        return Ok(Err(Refusal::Full));
    };
    move_all(tables, containers, &Place::Desk)?;
    Ok(Ok(Done::Run {
        run: run.get(),
        taken: due.len() as u64,
    }))
}

/// Makes a run for these orders, which are known to be those that are due.
fn bring_due<P: Places, S: Alter>(
    alloc: Global,
    tables: &mut Tables<P, S>,
    today: Day,
    due: &[ContainerOrder],
) -> Result<Result<Done, Refusal>, StoreFault>
    ensures { PerformsSparing P.represents P.version S.Store
        (λ s. (today ≡ s.day) × (due.now ≡ taken_by P.version s) × (is_empty due.now ≡ false)) command.Run
        tables.old tables.new result }
{
    let containers = containers_of(alloc, due)?;
    bring(tables, today, due, &containers)
}

/// Makes a run, and tells its number and how many containers it fetches. It takes the first order for each container on
/// the shelf if the container is open to the order's reader, the earliest orders first and no more than a run takes,
/// and brings their containers to the desk. The command is refused if no order is due, or if no number is left for a
/// run. After a refusal the caller must roll the transaction back. `today` and `limits` must be the office's, and
/// `known` the marks of all its units.
pub fn fetch<P: Places, S: Alter>(
    alloc: Global,
    tables: &mut Tables<P, S>,
    known: &KnownForest,
    today: Day,
    limits: &Limits,
) -> Result<Result<Done, Refusal>, StoreFault>
    ensures { PerformsSparing P.represents P.version S.Store
        (λ s. (today ≡ s.day) × (limits.now ≡ limits_of s) × AreWalkMarks s.catalogue.forest known.now)
        command.Run tables.old tables.new result }
{
    let waiting = first_orders(alloc, tables)?;
    let due = first_open(alloc, tables, known, today, limits.run, &waiting)?;
    if are_none(&due) {
        return Ok(Err(Refusal::NothingToMove));
    }
    bring_due(alloc, tables, today, &due)
}
