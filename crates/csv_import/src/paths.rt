//! The paths of the units that a file's rows name.

ghost use Rattle.std.specs.Prelude.{◌≡◌, map};
ghost use Rattle.isad_core.specs.Texts.{Bytes};
ghost use Rattle.tree_core.specs.Forest.{path};
ghost use Rattle.catalogue_core.specs.Bounds.{IsKept};
ghost use Rattle.catalogue_core.specs.GoodCatalogues.{AreGoodUnits};
ghost use Rattle.catalogue_core.specs.EntryByRow.{number_there};
ghost use Rattle.catalogue_core.specs.Units.{is_from};
ghost use Rattle.office_tables.specs.Calls.{Answers};
ghost use Rattle.office_tables.specs.Premises.{◌within◌gives◌};
ghost use Rattle.catalogue_statements.specs.Representation.{Represents};

use catalogue_store::Places;
use isad_core::Number;
use office_tables::{StoreFault, Tables};
use sqlite::Alter;
use std::alloc::Global;

/// The numbers of the units on the path of this unit, which must be catalogued, from the top down to it. Empty if no
/// unit is given.
pub(crate) fn path_of<P: Places, S: Alter>(
    alloc: Global,
    tables: &mut Tables<P, S>,
    unit: Option<Number>,
) -> Result<Vec<Number>, StoreFault>
    ensures answers { Answers S.Store (Represents P.represents P.version) tables.old tables.new result
        within IsKept gives λ _ c ids. AreGoodUnits c → (source legacy : Bytes) → unit ≡ number_there c source legacy
        → ids.items ≡ map (λ unit. unit.id) (path (is_from source legacy) c.forest) }
{
    let Some(unit) = unit else {
        return Ok(Vec::new(alloc));
    };
    P::path(alloc, tables, unit)
}
