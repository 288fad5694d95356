//! The office: its row, and how many units and containers it has.

ghost use Rattle.std.specs.Prelude.{◌≡◌, [], OnOk};
ghost use Rattle.sqlite.specs.Held.{state};
ghost use Rattle.sqlite.specs.State.{HasCleanDisk};
ghost use Rattle.office_tables.specs.Calls.{StoreAnswers};
ghost use Rattle.office_tables.specs.ChangeStatement.{Leaves};
ghost use Rattle.office_tables.specs.Premises.{◌within◌gives◌};
ghost use Rattle.office_tables.specs.Schema as schema;
ghost use Rattle.office_tables.specs.Step.{InTransaction, PutsRow};
ghost use Rattle.catalogue_statements.specs.CallClauses.{FailsWithCause};
ghost use Rattle.catalogue_statements.specs.Rows.{office_row as row_of_office};
ghost use Rattle.catalogue_statements.specs.Settings.{AreLegibleSettings};
ghost use Rattle.catalogue_statements.specs.Representation.{RepresentsSettings};
ghost use Rattle.catalogue_store.specs.Offices.{office_with_counts};

use catalogue_statements::OfficeRow;
use catalogue_statements::office::{count_containers, count_units, find_office};
use office_tables::value::{day, number, words};
use office_tables::{StoreFault, Tables, cell};
use sqlite::{Alter, Connection};
use std::alloc::Global;
use tree_places::Places;

/// Adds the office's row, which has the number 1 and the version of `P`. Fails if there is a row with this number.
/// Needs an open transaction over our tables. If the table is empty and no limit on steps is set, it fails only for
/// want of memory or because of the disk. If it fails, every row is as it was, or the transaction was rolled back.
pub fn insert_office<P: Places, S: Alter>(
    conn: &mut Connection<S>,
    row: &OfficeRow,
) -> Result<(), StoreFault>
    ensures leaves { InTransaction P.version (state S.Store conn.old)
        → Leaves (state S.Store conn.old) (state S.Store conn.new) result }
    ensures puts { InTransaction P.version (state S.Store conn.old) → HasCleanDisk (state S.Store conn.new)
        → OnOk result (PutsRow schema.office.tree (row_of_office P.version row.now) (state S.Store conn.old).now
        (state S.Store conn.new).now) }
    ensures faults { InTransaction P.version (state S.Store conn.old)
        → (state S.Store conn.old).now.trees schema.office.tree ≡ []
        → FailsWithCause S.Store conn.old conn.new result }
{
    let version = P::number();
    // An open connection's rows keep the rules of its tables.
    let _ = conn.schema();
    conn.execute(
        "INSERT INTO office (one, version, country, repo, seats, daily, hands, run_size, day, next_unit) VALUES (1, ?1, ?2, ?3, ?4, ?5, ?6, ?7, ?8, ?9)",
        &[
            number(version),
            words(&row.country),
            words(&row.repo),
            number(u64::from(row.seats)),
            number(u64::from(row.daily)),
            number(u64::from(row.hands)),
            number(u64::from(row.run_size)),
            day(row.day),
            cell(row.next_unit),
        ],
    )?;
    Ok(())
}

/// The office's row, and how many units and containers there are.
#[derive(Debug, PartialEq, Drop)]
pub struct Office {
    pub row: OfficeRow,
    /// How many units there are.
    pub units: u64,
    /// How many containers there are.
    pub containers: u64,
}

/// The office's row (the settings, the day, the next unit number), and how many units and containers there are; SQL
/// counts up to 2^63 - 1. If the row's texts are not UTF-8, its day is none of the calendar, or a number does not fit
/// its type, it may fail with `Schema`.
pub fn office_row<P: Places, S: Alter>(
    alloc: Global,
    tables: &mut Tables<P, S>,
) -> Result<Office, StoreFault>
    ensures answers { StoreAnswers S.Store (RepresentsSettings P.represents P.version) tables.old tables.new result
        within AreLegibleSettings gives λ c o office. office ≡ office_with_counts c o }
{
    let Some(row) = find_office(alloc, tables)? else {
        return Err(StoreFault::Schema);
    };
    let units = count_units(alloc, tables)?;
    let containers = count_containers(alloc, tables)?;
    Ok(Office {
        row,
        units,
        containers,
    })
}

/// The office's row: the settings, the day and the next unit number. Unlike `office_row`, it counts neither units nor
/// containers. If the row's texts are not UTF-8, its day is none of the calendar, or a number does not fit its type, it
/// may fail with `Schema`.
pub fn settings<P: Places, S: Alter>(
    alloc: Global,
    tables: &mut Tables<P, S>,
) -> Result<OfficeRow, StoreFault>
    ensures answers { StoreAnswers S.Store (RepresentsSettings P.represents P.version) tables.old tables.new result
        within AreLegibleSettings gives λ _ o row. row ≡ o }
{
    let Some(row) = find_office(alloc, tables)? else {
        return Err(StoreFault::Schema);
    };
    Ok(row)
}
