//! Changes of units, made to the marks that are known in memory.

ghost use Rattle.std.specs.Prelude.{◌≡◌, IfOk};
ghost use Rattle.catalogue_core.specs.CatalogueMerge.{Catalogue};
ghost use Rattle.catalogue_core.specs.Statuses.{chosen, with_closure, with_status};
ghost use Rattle.known_units.specs.KnownUnits.{KnowsUnits};
ghost use Rattle.known_units.specs.UnitChanges.{changed_by};

use isad_core::{Day, Number};
use known_forest::KnownForest;
use std::alloc::AllocError;

/// Makes a unit or, if `whole`, each unit of its branch a draft, or publishes it. Nothing changes if there is no such
/// unit.
pub fn set_status(known: &mut KnownForest, unit: Number, draft: bool, whole: bool)
    ensures { (c : Catalogue) → KnowsUnits c.forest known.old
        → KnowsUnits (with_status (chosen whole unit c) draft c).forest known.new }
{
    known.set_draft(unit, draft, whole);
}

/// A closure's end, as marks have it.
fn end_in_marks(until: Option<Day>) -> Option<i32>
    ensures { result ≡ until }
{
    match until {
        Some(day) => Some(day.number()),
        None => None,
    }
}

/// Closes a unit until a day, on which it is open again, or ends its closure if no day is given. Nothing changes if
/// there is no such unit.
pub fn set_closure(known: &mut KnownForest, unit: Number, until: Option<Day>)
    ensures { (c : Catalogue) → KnowsUnits c.forest known.old
        → KnowsUnits (with_closure unit until c).forest known.new }
{
    known.set_until(unit, end_in_marks(until));
}

/// A change of a unit that leaves where units stand.
#[derive(Clone, Copy, Debug, PartialEq, Eq)]
pub enum UnitChange {
    /// The unit or, if `whole`, each unit of its branch becomes a draft, or is published.
    Status { draft: bool, whole: bool },
    /// The unit is closed until a day, on which it is open again. Without a day its closure ends.
    Closure { until: Option<Day> },
}

/// The marks of all units after a change of one, in a copy. They are the same if there is no such unit.
pub fn with_change(
    known: &KnownForest,
    unit: Number,
    change: UnitChange,
) -> Result<KnownForest, AllocError>
    ensures { IfOk result (λ after. (c : Catalogue) → KnowsUnits c.forest known.now
        → KnowsUnits (changed_by change unit c).forest after) }
{
    let mut after = known.clone()?;
    match change {
        UnitChange::Status { draft, whole } => set_status(&mut after, unit, draft, whole),
        UnitChange::Closure { until } => set_closure(&mut after, unit, until),
    }
    Ok(after)
}
