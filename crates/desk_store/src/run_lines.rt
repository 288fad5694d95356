//! What runs brought to the desk.

ghost use Rattle.std.specs.Prelude.{◌≡◌, nat_eq, true, find, option_map};
ghost use Rattle.std.specs.List.{AllByRecursion, AllZip};
ghost use Rattle.isad_core.specs.Days.{is_day_number};
ghost use Rattle.desk_core.specs.DeskRows.{RunRow};
ghost use Rattle.office_tables.specs.Calls.{StoreAnswers};
ghost use Rattle.office_tables.specs.Premises.{◌when◌within◌gives◌, ◌within◌and◌gives◌};
ghost use Rattle.office_tables.specs.Schema as schema;
ghost use Rattle.office_tables.specs.Step.{Holds};
ghost use Rattle.office_tables.specs.TableStatements.{LooksUp};
ghost use Rattle.desk_store.specs.Rows.{run_cells};
ghost use Rattle.desk_store.specs.Runs.{run_with};
ghost use Rattle.office_tables.specs.RowNumbers.{AreCounted};
ghost use Rattle.desk_store.specs.Storage.{RepresentsQueues, IsLegibleStorage, AreKnown};
ghost use Rattle.desk_store.specs.Storage.{IsToldRun, IsToldLine, IsKnownLine};

use crate::container_labels::box_of;
use crate::container_orders::ContainerOrder;
use crate::runs::{Brought, lines_with};
use desk_core::Candidate;
use isad_core::{Day, List, Number};
use office_tables::from_row::FromRow;
use office_tables::{StoreFault, Tables, Versioned, cell, find_one};
use sqlite::{Alter, Row};
use std::alloc::Global;

/// The day on which a run was made.
#[derive(Debug, Clone, Copy, PartialEq, Eq, Drop)]
struct RunDay {
    day: Day,
}

impl FromRow for RunDay {
    ghost use Rattle.std.specs.Prelude.{◌≡◌, [], ◌∷◌, true};
    ghost use Rattle.sqlite.specs.declared.types.Value.TheVariants.{Int};
    ghost use Rattle.isad_core.specs.Days.{is_day_number};

    ghost cells = { λ r. Int r.day ∷ [] };

    ghost is_legible = { λ r. is_day_number r.day ≡ true };

    fn read(row: &Row) -> Result<RunDay, StoreFault> {
        let number: i32 = row.get(0)?;
        let Some(day) = Day::from_number(number) else {
            return Err(StoreFault::Schema);
        };
        Ok(RunDay { day })
    }
}

/// The day of a run, or none if there is no such run. A run is found by the number of its row.
fn find_day<P: Versioned, S: Alter>(
    alloc: Global,
    tables: &mut Tables<P, S>,
    run: Number,
) -> Result<Option<RunDay>, StoreFault>
    ensures { LooksUp S.Store (Holds schema.run run_cells) tables.old tables.new result
        when AreCounted (λ r. r.id) within AllByRecursion (λ r. is_day_number r.day ≡ true)
        gives λ xs found. found ≡ option_map (λ (r : RunRow). record { day = r.day }) (find (λ r. nat_eq run r.id) xs) }
{
    find_one(
        alloc,
        tables,
        "SELECT day FROM run WHERE id = ?1 ORDER BY id",
        &[cell(run)],
    )
}

/// A line of a run, with what is written on its container. Fails with `StoreFault::Schema` if the container is not
/// known.
fn candidate<P: Versioned, S: Alter>(
    alloc: Global,
    tables: &mut Tables<P, S>,
    line: &ContainerOrder,
) -> Result<Candidate, StoreFault>
    ensures answers { StoreAnswers S.Store RepresentsQueues tables.old tables.new result
        within IsLegibleStorage and IsKnownLine line.now gives λ _ storage told. IsToldLine storage line.now told }
{
    let Some(written) = box_of(alloc, tables, line.container)? else {
        return Err(StoreFault::Schema);
    };
    Ok(Candidate {
        container: line.container.get(),
        order: line.order.get(),
        ticket: line.ticket.get(),
        location: written.location,
        name: written.name,
        kind: written.kind,
    })
}

/// These lines, in their order, each with what is written on its container. The containers must be known.
fn candidates_of<P: Versioned, S: Alter>(
    alloc: Global,
    tables: &mut Tables<P, S>,
    lines: &[ContainerOrder],
) -> Result<Vec<Candidate>, StoreFault>
    ensures answers { StoreAnswers S.Store RepresentsQueues tables.old tables.new result
        within IsLegibleStorage and (λ storage. AllByRecursion (λ l. IsKnownLine l storage) lines.now)
        gives λ _ storage told. AllZip (IsToldLine storage) lines.now told.items }
{
    let mut told = Vec::new(alloc);
    for line in lines {
        let candidate = candidate(alloc, tables, line)?;
        told.push(candidate)?;
    }
    Ok(told)
}

/// What a run brought: its day, and its lines, each with what is written on its container; none if there was no such
/// run. The contract leaves the order of the lines open. If a container of a line is not known, it may fail with
/// `Schema`.
pub fn run<P: Versioned, S: Alter>(
    alloc: Global,
    tables: &mut Tables<P, S>,
    run: Number,
) -> Result<Option<Brought>, StoreFault>
    ensures answers { StoreAnswers S.Store RepresentsQueues tables.old tables.new result
        within IsLegibleStorage and AreKnown run
        gives λ _ storage found. IsToldRun storage (run_with run storage.desk) found }
{
    let Some(made) = find_day(alloc, tables, run)? else {
        return Ok(None);
    };
    let lines = lines_with(alloc, tables, run)?;
    let told = candidates_of(alloc, tables, &lines)?;
    Ok(Some(Brought {
        day: made.day,
        lines: List(told),
    }))
}
