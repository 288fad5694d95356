//! The gate: after a change, nothing that is out may be withheld from the reader who has it.

ghost use Rattle.std.specs.Prelude.{◌≡◌, IfErr, option_copied};
ghost use Rattle.sqlite.specs.Held.{state};
ghost use Rattle.sqlite.specs.State.{HasCleanDisk};
ghost use Rattle.catalogue_core.specs.UnitMarks.{AreWalkMarks};
ghost use Rattle.office_core.specs.Rules.{lowest_withheld as lowest_withheld_of};
ghost use Rattle.office_tables.specs.Calls.{Answers};
ghost use Rattle.office_tables.specs.Faults.{BlamesDisk};
ghost use Rattle.office_tables.specs.Premises.{◌within◌gives◌};
ghost use Rattle.access.specs.Gate.{first_closed as first_closed_of, gate_reply};
ghost use Rattle.known_units.specs.KnownUnits.{TellOf};
ghost use Rattle.refinement.specs.AccessConditions.{CanBeJudged, RepresentsWhole};

use crate::openness::is_open_today;
use crate::unit_marks::all_marks;
use catalogue_store::Places;
use desk_store::{ContainerOrder, issued};
use isad_core::Day;
use known_forest::KnownForest;
use office_core::{Done, Refusal};
use office_tables::{StoreFault, Tables};
use sqlite::Alter;
use std::alloc::Global;

/// The container of the first of these loans that is not open today to the reader who has it; none if all are open.
/// `known` must be the marks of all units, and `today` the office's day.
fn first_closed_by<P: Places, S: Alter>(
    alloc: Global,
    tables: &mut Tables<P, S>,
    known: &KnownForest,
    loans: &[ContainerOrder],
    today: Day,
) -> Result<Option<u64>, StoreFault>
    ensures answers { Answers S.Store (RepresentsWhole P.represents P.version) tables.old tables.new result
        within CanBeJudged gives λ _ s found. CanBeJudged s → today ≡ s.day → AreWalkMarks s.catalogue.forest known.now
        → found ≡ first_closed_of s loans.now }
    ensures disk { HasCleanDisk (state S.Store tables.new)
        → IfErr result (BlamesDisk (state S.Store tables.old) (state S.Store tables.new)) }
{
    for loan in loans {
        let loan = *loan;
        if !is_open_today(alloc, tables, known, loan.container, loan.ticket, today)? {
            return Ok(Some(loan.container.get()));
        }
    }
    Ok(None)
}

/// The container of the first of these loans that is not open today to the reader who has it; none if all are open.
/// `known` must be the marks of all units. If it is not given and there are loans, they are read first. `today` must be
/// the office's day.
pub(crate) fn first_closed<P: Places, S: Alter>(
    alloc: Global,
    tables: &mut Tables<P, S>,
    known: Option<&KnownForest>,
    loans: &[ContainerOrder],
    today: Day,
) -> Result<Option<u64>, StoreFault>
    ensures answers { Answers S.Store (RepresentsWhole P.represents P.version) tables.old tables.new result
        within CanBeJudged gives λ _ s found. CanBeJudged s → today ≡ s.day → TellOf s.catalogue (option_copied known.entry)
        → found ≡ first_closed_of s loans.now }
    ensures disk { HasCleanDisk (state S.Store tables.new)
        → IfErr result (BlamesDisk (state S.Store tables.old) (state S.Store tables.new)) }
{
    if loans.is_empty() {
        return Ok(None);
    }
    if let Some(known) = known {
        return first_closed_by(alloc, tables, known, loans, today);
    }
    let read = all_marks(alloc, tables)?;
    first_closed_by(alloc, tables, &read, loans, today)
}

/// The lowest container that is out and not open today to the reader who has it; none if there is none. `today` must be
/// the office's day.
pub fn lowest_withheld<P: Places, S: Alter>(
    alloc: Global,
    tables: &mut Tables<P, S>,
    today: Day,
) -> Result<Option<u64>, StoreFault>
    ensures answers { Answers S.Store (RepresentsWhole P.represents P.version) tables.old tables.new result
        within CanBeJudged gives λ _ s found. CanBeJudged s → today ≡ s.day → found ≡ lowest_withheld_of s }
{
    let loans = issued(alloc, tables)?;
    first_closed(alloc, tables, None, &loans, today)
}

/// The outcome of a change that the tables already show: `done`, or the refusal `WithReader` with the lowest container
/// that is out and not open today to the reader who has it. `today` must be the office's day.
pub fn pass_gate<P: Places, S: Alter>(
    alloc: Global,
    tables: &mut Tables<P, S>,
    today: Day,
    done: Done,
) -> Result<Result<Done, Refusal>, StoreFault>
    ensures answers { Answers S.Store (RepresentsWhole P.represents P.version) tables.old tables.new result
        within CanBeJudged gives λ _ s reply. CanBeJudged s → today ≡ s.day → reply ≡ gate_reply s done }
{
    match lowest_withheld(alloc, tables, today)? {
        Some(container) => Ok(Err(Refusal::WithReader { container })),
        None => Ok(Ok(done)),
    }
}
