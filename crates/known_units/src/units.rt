//! Units of a catalogue, found in a forest that is known in memory.
//!
//! The contracts speak of each catalogue whose units have these marks. With other marks the calls return too, but what
//! they answer is unspecified.

ghost use Rattle.std.specs.Prelude.{◌≡◌, map, IfOk};
ghost use Rattle.tree_core.specs.Forest.{Forest, path, tree};
ghost use Rattle.tree_core.specs.Tops.{part_below, tops};
ghost use Rattle.catalogue_core.specs.UnitMarks.{AreMarks, AreWalkMarks};
ghost use Rattle.catalogue_core.specs.Units.{«Unit» as Described, has_id};
ghost use Rattle.known_units.specs.KnownUnits.{KnowsUnits};

use isad_core::Number;
use known_forest::KnownForest;
use std::alloc::{AllocError, Global};
use visibility::Mark;

/// The marks of the units on the path of this one, from its top down to itself. Empty if there is no such unit.
pub fn path_marks(alloc: Global, known: &KnownForest, unit: Number) -> Result<Vec<Mark>, AllocError>
    ensures { IfOk result (λ marks. (f : Forest Described) → KnowsUnits f known.now
        → AreMarks (path (has_id unit) f) marks.items) }
{
    known.path(alloc, unit)
}

/// The marks of the unit and of those below it, in walk order. Empty if there is no such unit.
pub fn branch_marks(known: &KnownForest, unit: Number) -> &[Mark]
    ensures { (f : Forest Described) → KnowsUnits f known.now → AreWalkMarks (tree (has_id unit) f) result.now }
{
    known.branch(unit)
}

/// The units right below this one, or the tops if no unit is given, in order. Empty if there is no such unit.
pub fn units_below(
    alloc: Global,
    known: &KnownForest,
    unit: Option<Number>,
) -> Result<Vec<Number>, AllocError>
    ensures { IfOk result (λ ids. (f : Forest Described) → KnowsUnits f known.now
        → ids.items ≡ map (λ (u : Described). u.id) (tops (part_below has_id unit f))) }
{
    known.children(alloc, unit)
}
