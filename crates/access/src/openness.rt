//! Whether containers are open today to the readers who order or fetch them.

ghost use Rattle.std.specs.Prelude.{◌≡◌, ℕ, IfErr, IsPermutation};
ghost use Rattle.sqlite.specs.Held.{state};
ghost use Rattle.sqlite.specs.State.{HasCleanDisk};
ghost use Rattle.catalogue_core.specs.UnitMarks.{AreWalkMarks};
ghost use Rattle.office_core.specs.State.{opens};
ghost use Rattle.office_tables.specs.Calls.{Answers};
ghost use Rattle.office_tables.specs.Faults.{BlamesDisk};
ghost use Rattle.office_tables.specs.Premises.{◌within◌gives◌};
ghost use Rattle.tree_places.specs.Attachments.{named_by};
ghost use Rattle.access.specs.Openness.{open_ones};
ghost use Rattle.refinement.specs.AccessConditions.{CanBeJudged, RepresentsWhole};

use crate::clean_units::are_units_open;
use catalogue_store::Places;
use desk_store::{ContainerOrder, permits};
use isad_core::{Day, Number};
use known_forest::KnownForest;
use office_tables::{StoreFault, Tables};
use sqlite::Alter;
use std::alloc::Global;
use tree_places::attached_units;

/// The units that name a container among their own, each once. Empty if none does.
fn units_of<P: Places, S: Alter>(
    alloc: Global,
    tables: &mut Tables<P, S>,
    container: Number,
) -> Result<Vec<Number>, StoreFault>
    ensures answers { Answers S.Store (RepresentsWhole P.represents P.version) tables.old tables.new result
        within CanBeJudged gives λ _ s units. IsPermutation (named_by s.catalogue container) units.items }
    ensures disk { HasCleanDisk (state S.Store tables.new)
        → IfErr result (BlamesDisk (state S.Store tables.old) (state S.Store tables.new)) }
{
    attached_units(alloc, tables, container)
}

/// Whether a container is open today to the reader with this ticket; never if no unit names it. `units` must be those
/// that name it, and `known` the marks of all units. The reader's permits are read only if one of these units is
/// withheld from a reader without permits.
fn is_open_by<P: Places, S: Alter>(
    alloc: Global,
    tables: &mut Tables<P, S>,
    known: &KnownForest,
    units: &[Number],
    ticket: Number,
    today: Day,
) -> Result<bool, StoreFault>
    ensures answers { Answers S.Store (RepresentsWhole P.represents P.version) tables.old tables.new result
        within CanBeJudged gives λ _ s yes. CanBeJudged s → today ≡ s.day → AreWalkMarks s.catalogue.forest known.now
        → (container : ℕ) → IsPermutation (named_by s.catalogue container) units.now → yes ≡ opens s ticket container }
    ensures disk { HasCleanDisk (state S.Store tables.new)
        → IfErr result (BlamesDisk (state S.Store tables.old) (state S.Store tables.new)) }
{
    if units.is_empty() {
        return Ok(false);
    }
    let is_public = are_units_open(alloc, known, units, &[], today)?;
    if is_public {
        return Ok(true);
    }
    let permits = permits(alloc, tables, ticket)?;
    let is_open = are_units_open(alloc, known, units, &permits, today)?;
    Ok(is_open)
}

/// Whether a container is open today to the reader with this ticket: a unit lies in it, and none that does is withheld
/// from the reader. `known` must be the marks of all units, and `today` the office's day.
pub fn is_open_today<P: Places, S: Alter>(
    alloc: Global,
    tables: &mut Tables<P, S>,
    known: &KnownForest,
    container: Number,
    ticket: Number,
    today: Day,
) -> Result<bool, StoreFault>
    ensures answers { Answers S.Store (RepresentsWhole P.represents P.version) tables.old tables.new result
        within CanBeJudged gives λ _ s yes. CanBeJudged s → today ≡ s.day → AreWalkMarks s.catalogue.forest known.now
        → yes ≡ opens s ticket container }
    ensures disk { HasCleanDisk (state S.Store tables.new)
        → IfErr result (BlamesDisk (state S.Store tables.old) (state S.Store tables.new)) }
{
    let units = units_of(alloc, tables, container)?;
    is_open_by(alloc, tables, known, &units, ticket, today)
}

/// Those of these orders whose containers are open today to their readers, in the same order. `known` must be the marks
/// of all units, and `today` the office's day.
pub fn open_today<P: Places, S: Alter>(
    alloc: Global,
    tables: &mut Tables<P, S>,
    known: &KnownForest,
    orders: &[ContainerOrder],
    today: Day,
) -> Result<Vec<ContainerOrder>, StoreFault>
    ensures answers { Answers S.Store (RepresentsWhole P.represents P.version) tables.old tables.new result
        within CanBeJudged gives λ _ s found. CanBeJudged s → today ≡ s.day → AreWalkMarks s.catalogue.forest known.now
        → found.items ≡ open_ones s orders.now }
{
    let mut open = Vec::new(alloc);
    for order in orders {
        let order = *order;
        if is_open_today(alloc, tables, known, order.container, order.ticket, today)? {
            open.push(order)?;
        }
    }
    Ok(open)
}
