//! The calls on the whole catalogue.

ghost use Rattle.std.specs.Prelude.{[], OnOk};
ghost use Rattle.sqlite.specs.Held.{state};
ghost use Rattle.sqlite.specs.State.{HasCleanDisk};
ghost use Rattle.sqlite.specs.Effect.{Database};
ghost use Rattle.sqlite.specs.Change.{KeepsRows};
ghost use Rattle.tree_core.specs.Forest.{Empty};
ghost use Rattle.office_tables.specs.Calls.{RepresentsAlone, StoreAnswers};
ghost use Rattle.office_tables.specs.Creation.{IsMaking, LeavesMaking};
ghost use Rattle.catalogue_core.specs.UnitLookup.{FindsUnit};
ghost use Rattle.office_tables.specs.Premises.{◌gives◌};
ghost use Rattle.office_tables.specs.Schema.{desk_schema, desk_tables};
ghost use Rattle.catalogue_statements.specs.Representation.{Represents, RepresentsUnits};
ghost use Rattle.catalogue_core.specs.Units.{is_from};

use crate::office::insert_office;
use catalogue_statements::OfficeRow;
use catalogue_statements::units::unit_number;
use isad_core::{Number, Text};
use office_tables::table_creation::{create_containers, create_units};
use office_tables::{StoreFault, Tables, Versioned};
use sqlite::{Alter, Connection};
use std::alloc::Global;
use tree_places::Places;

/// Creates the catalogue's tables and the office's row. The catalogue has no units and no containers, and its next unit
/// number is that of the row. The desk's tables must be there and no others, and keep their rows. A transaction must be
/// open.
pub fn create<P: Places, S: Alter>(
    conn: &mut Connection<S>,
    row: &OfficeRow,
) -> Result<(), StoreFault>
    ensures represents { (start : Database) → IsMaking desk_tables desk_schema start (state S.Store conn.old)
        → HasCleanDisk (state S.Store conn.new)
        → OnOk result (Represents P.represents P.version (state S.Store conn.new).now row.now
        (record { forest = Empty; containers = []; next = row.now.next_unit })) }
    ensures desk { (start : Database) → IsMaking desk_tables desk_schema start (state S.Store conn.old)
        → HasCleanDisk (state S.Store conn.new)
        → OnOk result (KeepsRows desk_tables start.trees (state S.Store conn.new).now.trees) }
    ensures leaves { (start : Database) → IsMaking desk_tables desk_schema start (state S.Store conn.old)
        → LeavesMaking (state S.Store conn.old) (state S.Store conn.new) result }
{
    create_units(conn)?;
    create_containers(conn)?;
    P::create(conn)?;
    insert_office::<P, S>(conn, row)
}

/// The number in this office of the unit that has the number `legacy` in this source, or none if no unit has it.
pub fn known<P: Versioned, S: Alter>(
    alloc: Global,
    tables: &mut Tables<P, S>,
    source: &Text,
    legacy: &Text,
) -> Result<Option<Number>, StoreFault>
    ensures answers { StoreAnswers S.Store (RepresentsAlone RepresentsUnits) tables.old tables.new result
        gives λ _ f. FindsUnit (is_from source.now legacy.now) f }
{
    unit_number(alloc, tables, source, legacy)
}
