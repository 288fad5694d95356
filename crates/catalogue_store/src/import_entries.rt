//! Units that are entered separately from their places: the places of all new units of a file are added at once.

ghost use Rattle.std.specs.Prelude.{ℕ, Option};
ghost use Rattle.office_tables.specs.Premises.{◌when◌within◌gives◌};
ghost use Rattle.office_tables.specs.Versions.{Version};
ghost use Rattle.catalogue_core.specs.Bounds.{IsKept};
ghost use Rattle.catalogue_core.specs.Descriptions.{AreWhole, HasPlaceFor, IsNew, MayDescribe, with_values};
ghost use Rattle.office_tables.specs.Calls.{StoreUpdates};
ghost use Rattle.catalogue_statements.specs.NewUnit.{unit_of};
ghost use Rattle.catalogue_statements.specs.Representation.{RepresentsCatalogue, described_trees};
ghost use Rattle.catalogue_store.specs.ImportEntries.{with_entered};

use crate::descriptions::{clear, describe};
use catalogue_statements::NewUnit;
use catalogue_statements::units::{insert_unit, set_level};
use isad_core::{Number, Values};
use office_tables::{StoreFault, Tables, Versioned};
use sqlite::Alter;
use std::alloc::Global;

/// Enters a new unit with its values; its place is written by another call, below a parent that exists or among the
/// tops. New containers get the next numbers, and the next unit number stays as it is. The catalogue must know the
/// containers of all its units. If the number, or the number in the source, is taken, or if the values lack a place for
/// one of the 25 texts or name a container twice, it may fail with `Schema`.
pub fn enter_unit<P: Versioned, S: Alter>(
    alloc: Global,
    tables: &mut Tables<P, S>,
    unit: &NewUnit<'_>,
) -> Result<(), StoreFault>
    ensures updates { (version : Version) (parent : Option ℕ)
        → StoreUpdates S.Store described_trees (RepresentsCatalogue version) tables.old tables.new result
        when HasPlaceFor parent within (λ c. IsKept c × IsNew (unit_of unit.now) c)
        gives with_entered parent (unit_of unit.now) }
{
    insert_unit(tables, unit)?;
    describe(alloc, tables, unit.id, unit.values)
}

/// Replaces the values of a unit, which must exist: its level, texts and containers. All else of it stays. New
/// containers get the next numbers, and known ones stay. The catalogue must know the containers of all its units. If
/// the values lack a place for one of the 25 texts, or name a container twice, it may fail with `Schema`.
pub fn enter_values<P: Versioned, S: Alter>(
    alloc: Global,
    tables: &mut Tables<P, S>,
    unit: Number,
    values: &Values,
) -> Result<(), StoreFault>
    ensures updates { (version : Version)
        → StoreUpdates S.Store described_trees (RepresentsCatalogue version) tables.old tables.new result
        when MayDescribe unit within (λ c. IsKept c × AreWhole values.now) gives with_values unit values.now }
{
    set_level(tables, unit, values)?;
    clear(tables, unit)?;
    describe(alloc, tables, unit, values)
}
