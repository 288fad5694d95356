//! The row of the office: its settings, its day and its next unit number.

ghost use Rattle.std.specs.Prelude.{◌≡◌, [], ◌∷◌, length, Some, OnOk, IfOk};
ghost use Rattle.sqlite.specs.Held.{state};
ghost use Rattle.sqlite.specs.State.{HasCleanDisk};
ghost use Rattle.sqlite.specs.Table.{Table};
ghost use Rattle.office_tables.specs.Premises.{◌gives◌};
ghost use Rattle.office_tables.specs.Versions.{Version};
ghost use Rattle.office_tables.specs.ChangeStatement.{Leaves};
ghost use Rattle.office_tables.specs.Query.{IsQuery};
ghost use Rattle.office_tables.specs.RowCounts.{cap};
ghost use Rattle.office_tables.specs.Schema as schema;
ghost use Rattle.office_tables.specs.Step.{Holds, HasRows};
ghost use Rattle.office_tables.specs.TableStatements.{LooksUp};
ghost use Rattle.catalogue_statements.specs.CallClauses.{ChangesOnly, FailsWithCause, OnlyReads};
ghost use Rattle.catalogue_statements.specs.CountQuery.{CountsRows};
ghost use Rattle.catalogue_statements.specs.Rows.{numbered_container_cells, office_row as row_of_office, cells_of_unit};
ghost use Rattle.catalogue_statements.specs.Settings.{AreLegibleSettings};
ghost use Rattle.catalogue_statements.specs.Representation.{RepresentsOffice};
ghost use Rattle.catalogue_statements.specs.declared.office.OfficeRow.{OfficeRow};

use isad_core::{Day, Number, Text};
use office_tables::{StoreFault, Tables, Versioned, cell, change, find_one};
use sqlite::Alter;
use std::alloc::Global;

/// The office's row: the settings, the day and the next unit number.
#[derive(Debug, PartialEq, Drop)]
pub struct OfficeRow {
    /// Two letters, A to Z.
    pub country: Text,
    /// 1 to 32 bytes.
    pub repo: Text,
    /// How many seats the reading room has.
    pub seats: u32,
    /// How many orders a ticket may place on a day.
    pub daily: u32,
    /// How many containers a ticket may have out.
    pub hands: u32,
    /// How many containers a run takes at most.
    pub run_size: u32,
    /// The day on which the desk is open.
    pub day: Day,
    /// The number of the next new unit.
    pub next_unit: Number,
}

/// Writes the number of the next new unit into the office's row. All else in the row stays.
pub fn set_next_unit<P: Versioned, S: Alter>(
    tables: &mut Tables<P, S>,
    next: Number,
) -> Result<(), StoreFault>
    ensures leaves { Leaves (state S.Store tables.old) (state S.Store tables.new) result }
    ensures rows { HasCleanDisk (state S.Store tables.new)
        → (version : Version) (o : OfficeRow) → RepresentsOffice version (state S.Store tables.old).now.trees o
        → OnOk result (HasRows schema.office.tree (row_of_office version (record o { next_unit = next }) ∷ [])
        (state S.Store tables.old).now (state S.Store tables.new).now) }
    ensures only { ChangesOnly S.Store (schema.office.tree ∷ []) tables.old tables.new result }
    ensures faults { (version : Version) (o : OfficeRow) → RepresentsOffice version
        (state S.Store tables.old).now.trees o
        → FailsWithCause S.Store tables.old tables.new result }
{
    change(
        tables,
        "UPDATE office SET next_unit = ?1 WHERE one = 1",
        &[cell(next)],
    )
}

/// The row of the office, or none if there is no office. If its texts are not UTF-8, its day is none of the calendar,
/// or a number does not fit its type, it may fail with `Schema`.
pub fn find_office<P: Versioned, S: Alter>(
    alloc: Global,
    tables: &mut Tables<P, S>,
) -> Result<Option<OfficeRow>, StoreFault>
    ensures reads { OnlyReads S.Store tables.old tables.new result }
    ensures row { HasCleanDisk (state S.Store tables.new)
        → (version : Version) (o : OfficeRow) → RepresentsOffice version (state S.Store tables.old).now.trees o
        → IfOk result (λ found. found ≡ Some o) }
    ensures faults { (version : Version) (o : OfficeRow) → RepresentsOffice version
        (state S.Store tables.old).now.trees o
        → AreLegibleSettings o
        → FailsWithCause S.Store tables.old tables.new result }
{
    find_one(
        alloc,
        tables,
        "SELECT country, repo, seats, daily, hands, run_size, day, next_unit FROM office ORDER BY one",
        &[],
    )
}

/// The number that a query shows that counts the rows of a table.
fn count<P: Versioned, S: Alter>(
    alloc: Global,
    tables: &mut Tables<P, S>,
    sql: &str,
) -> Result<u64, StoreFault>
    requires { IsQuery P.version sql.now }
    ensures { (table : Table) → CountsRows P.version table sql.now
        → LooksUp S.Store (Holds table (λ row. row)) tables.old tables.new result
        gives λ rows number. number ≡ cap (length rows) }
{
    let Some(number) = find_one(alloc, tables, sql, &[])? else {
        return Err(StoreFault::Schema);
    };
    Ok(number)
}

/// How many units there are. SQL counts up to 2^63 - 1.
pub fn count_units<P: Versioned, S: Alter>(
    alloc: Global,
    tables: &mut Tables<P, S>,
) -> Result<u64, StoreFault>
    ensures { LooksUp S.Store (Holds schema.unit cells_of_unit) tables.old tables.new result
        gives λ xs units. units ≡ cap (length xs) }
{
    count(alloc, tables, "SELECT count(*) FROM unit")
}

/// How many containers there are. SQL counts up to 2^63 - 1.
pub fn count_containers<P: Versioned, S: Alter>(
    alloc: Global,
    tables: &mut Tables<P, S>,
) -> Result<u64, StoreFault>
    ensures { LooksUp S.Store (Holds schema.container numbered_container_cells) tables.old tables.new result
        gives λ xs containers. containers ≡ cap (length xs) }
{
    count(alloc, tables, "SELECT count(*) FROM container")
}
