//! Opening a new day.

ghost use Rattle.std.specs.Prelude.{[], ◌∷◌, OnOk};
ghost use Rattle.sqlite.specs.Held.{state};
ghost use Rattle.sqlite.specs.State.{HasCleanDisk};
ghost use Rattle.office_tables.specs.Calls.{StoreUpdates};
ghost use Rattle.office_tables.specs.ChangeStatement.{Leaves};
ghost use Rattle.office_tables.specs.Faults.{FaultsHaveCause};
ghost use Rattle.office_tables.specs.Premises.{◌when◌leaves◌, ◌within◌gives◌};
ghost use Rattle.office_tables.specs.Schema as schema;
ghost use Rattle.office_tables.specs.SharedRows.{OfficeRow, office_cells};
ghost use Rattle.office_tables.specs.Step.{Holds, HasRows, OnlyTouches};
ghost use Rattle.office_tables.specs.TableStatements.{Thins};
ghost use Rattle.desk_store.specs.OfficeDay.{RepresentsBoth, IsLegibleHouse, opened_house};
ghost use Rattle.desk_store.specs.Rows.{seat_cells};
ghost use Rattle.office_tables.specs.RowNumbers.{AreByNumber};

use isad_core::Day;
use office_tables::value::day;
use office_tables::{StoreFault, Tables, Versioned, change};
use sqlite::Alter;

/// Frees all seats: deletes all rows of the table, which has a row for each taken seat.
fn free_seats<P: Versioned, S: Alter>(tables: &mut Tables<P, S>) -> Result<(), StoreFault>
    ensures { Thins S.Store schema.seat seat_cells tables.old tables.new result
        when AreByNumber (λ s. s.seat) leaves λ _. [] }
{
    change(tables, "DELETE FROM seat", &[])
}

/// Writes the day on which the desk is open. The table has one row, which is found by its number.
fn set_day<P: Versioned, S: Alter>(tables: &mut Tables<P, S>, on: Day) -> Result<(), StoreFault>
    ensures leaves { Leaves (state S.Store tables.old) (state S.Store tables.new) result }
    ensures rows { HasCleanDisk (state S.Store tables.new) → (o : OfficeRow)
        → Holds schema.office office_cells (state S.Store tables.old) (o ∷ [])
        → OnOk result (HasRows schema.office.tree (office_cells (record o { day = on }) ∷ [])
        (state S.Store tables.old).now (state S.Store tables.new).now) }
    ensures only { HasCleanDisk (state S.Store tables.new)
        → OnOk result (OnlyTouches (schema.office.tree ∷ []) (state S.Store tables.old).now
        (state S.Store tables.new).now) }
    ensures faults { (o : OfficeRow) → Holds schema.office office_cells (state S.Store tables.old) (o ∷ [])
        → FaultsHaveCause (state S.Store tables.old) (state S.Store tables.new) result }
{
    change(
        tables,
        "UPDATE office SET day = ?1 WHERE one = 1",
        &[day(on)],
    )
}

/// Opens the desk on another day, whichever it is: writes it into the office's row, and all seats become free. Nothing
/// else is changed. After a fault the seats may be free and the day the old one.
pub fn open_day<P: Versioned, S: Alter>(
    tables: &mut Tables<P, S>,
    on: Day,
) -> Result<(), StoreFault>
    ensures updates { StoreUpdates S.Store (schema.seat.tree ∷ schema.office.tree ∷ []) RepresentsBoth
        tables.old tables.new result
        within IsLegibleHouse gives opened_house on }
{
    free_seats(tables)?;
    set_day(tables, on)
}
