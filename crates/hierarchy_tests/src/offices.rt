//! An office in either version, and what the check of its places finds.

ghost use Rattle.std.specs.Prelude.{◌≡◌, OnOk};
ghost use Rattle.sqlite.specs.Held.{state};
ghost use Rattle.sqlite.specs.State.{HasCleanDisk};
ghost use Rattle.office_tables.specs.Schema.{no_schema};
ghost use Rattle.office_tables.specs.Step.{InTransaction};

use catalogue_store::{OfficeRow, Places, StoreFault, begin, create};
use desk_store::{create_desk, is_blank};
use integrity_checks::{CheckedPlaces, Placed};
use isad_core::{Day, Number, Text};
use office_tables::Tables;
use sqlite::types::ValueRef;
use sqlite::{Alter, Connection};
use std::alloc::Global;
use std::test::Fail;

/// A row, whatever its numbers are.
pub(crate) type Row = [ValueRef<'static>; 3];

fn settings(alloc: Global) -> Result<OfficeRow, StoreFault> {
    let Some(day) = Day::from_number(19783) else {
        return Err(StoreFault::Schema);
    };
    Ok(OfficeRow {
        country: Text::new(alloc, "GB")?,
        repo: Text::new(alloc, "0999")?,
        seats: 2,
        daily: 3,
        hands: 1,
        run_size: 2,
        day,
        next_unit: Number::from(1),
    })
}

/// Begins a transaction and makes the tables of an office. There must be none yet.
fn open_office<P: Places, S: Alter>(
    alloc: Global,
    conn: &mut Connection<S>,
) -> Result<(), StoreFault>
    requires blank { HasCleanDisk (state S.Store conn.old) → (state S.Store conn.old).now.schema ≡ no_schema }
    ensures inside { OnOk result (InTransaction P.version (state S.Store conn.new)) }
{
    let row = settings(alloc)?;
    begin(conn)?;
    create_desk(conn)?;
    create::<P, S>(conn, &row)
}

/// Makes an office in a store that has nothing else.
fn make_office<P: Places, S: Alter>(
    alloc: Global,
    conn: &mut Connection<S>,
) -> Result<(), StoreFault>
    ensures inside { OnOk result (InTransaction P.version (state S.Store conn.new)) }
{
    if !is_blank(conn) {
        return Err(StoreFault::Schema);
    }
    open_office::<P, S>(alloc, conn)
}

/// The tables of a new office, in the transaction in which they were made.
pub(crate) fn new_office<P: Places, S: Alter + Drop>(
    alloc: Global,
    conn: Connection<S>,
) -> Result<Tables<P, S>, StoreFault> {
    let mut conn = conn;
    make_office::<P, S>(alloc, &mut conn)?;
    Ok(Tables::inside(conn))
}

/// The units and the height, or a dash if they are defective.
fn listing(alloc: Global, placed: Option<Placed>) -> Result<String, Fail> {
    let mut text = String::new(alloc);
    let Some(placed) = placed else {
        write!(text, "-")?;
        return Ok(text);
    };
    for unit in &placed.units {
        write!(text, "{} ", unit.get())?;
    }
    write!(text, "to {};", placed.height)?;
    Ok(text)
}

/// What the check of the places of an office finds.
pub(crate) fn check_result<P: CheckedPlaces, S: Alter>(
    alloc: Global,
    tables: &mut Tables<P, S>,
) -> Result<String, Fail> {
    let placed = P::check(alloc, tables)?;
    listing(alloc, placed)
}
