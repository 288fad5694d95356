//! Tables are migrated from version 1 to version 2, or refused with the reason.

ghost use Rattle.std.specs.Prelude.{◌≡◌, false, IfOk, None};
ghost use Rattle.sqlite.specs.Held.{state};
ghost use Rattle.sqlite.specs.State.{HasCleanDisk};
ghost use Rattle.sqlite.specs.Steps.{over_memory};

use crate::calls::{Said, all_rows};
use crate::migration::{has_spans, rows_of};
use crate::offices::in_memory;
use catalogue_store::LinkPlaces;
use office::{OpenFault, migrate};
use sqlite::{Connection, MemStore};
use std::alloc::Global;
use std::process::Abort;
use std::test::Fail;

/// One unit below a top.
const FONDS: &str =
    "legacyId,parentId,identifier,title,levelOfDescription,publicationStatus\n1,,HUL,Hull Dock Company,Fonds,Published\n2,1,1,Minutes,Series,Published\n";

/// A statement on the tables of version 1, and why they are then not migrated.
const REFUSED: [(&str, OpenFault); 6] = [
    (
        "UPDATE link SET parent = 2 WHERE id = 1",
        OpenFault::Unsound(2),
    ),
    ("DELETE FROM link WHERE id = 2", OpenFault::Unsound(3)),
    ("UPDATE office SET seats = 0", OpenFault::Unsound(1)),
    ("UPDATE office SET version = 2", OpenFault::NewVersion),
    ("DELETE FROM office", OpenFault::NoOffice),
    (
        "CREATE TABLE more (id INTEGER PRIMARY KEY)",
        OpenFault::Schema,
    ),
];

/// The tables of an office of version 1.
fn tables(alloc: Global) -> Result<Connection<MemStore>, Fail>
    ensures outside { IfOk result (λ conn. HasCleanDisk (state over_memory conn)
        → (state over_memory conn).in_transaction ≡ false) }
    ensures unlimited { IfOk result (λ conn. (state over_memory conn).step_limit ≡ None) }
{
    let mut office = in_memory::<LinkPlaces>(alloc)?;
    let taken = all_rows(alloc, &mut office, Said::Import(FONDS));
    let conn = office.into_connection();
    let _ = taken?;
    Ok(conn)
}

/// Why they are not migrated, or none if they are. Want of memory changes nothing, so it is tried again.
pub(crate) fn fault_of(alloc: Global, conn: &mut Connection<MemStore>) -> Option<OpenFault>
    requires outside { HasCleanDisk (state over_memory conn.old)
        → (state over_memory conn.old).in_transaction ≡ false }
    requires unlimited { (state over_memory conn.old).step_limit ≡ None }
    ensures outside { HasCleanDisk (state over_memory conn.new)
        → (state over_memory conn.new).in_transaction ≡ false }
    ensures unlimited { (state over_memory conn.new).step_limit ≡ None }
{
    match migrate(alloc, conn) {
        Ok(()) => None,
        Err(OpenFault::Memory) => migrate(alloc, conn).err(),
        Err(fault) => Some(fault),
    }
}

/// They are migrated once; after that they are tables of version 2.
#[test]
fn tables_come_to_version_2(rt: HostRuntime) -> Result<(), Fail> {
    let alloc = rt.alloc();
    let mut conn = tables(alloc)?;
    assert_eq!(rt; fault_of(alloc, &mut conn), None);
    assert_eq!(rt; fault_of(alloc, &mut conn), Some(OpenFault::NewVersion));
    has_spans(&rt, alloc, &mut conn, " 1 1 4\n 2 2 3\n")
}

/// All rows of the office and of its places, as numbers.
fn listing(alloc: Global, conn: &mut Connection<MemStore>) -> Result<String, Fail> {
    let mut rows = rows_of(alloc, conn, "SELECT version, seats FROM office", 2)?;
    let places = rows_of(alloc, conn, "SELECT id, ord FROM link ORDER BY id", 2)?;
    rows.push_str(places.as_str())?;
    let below = rows_of(alloc, conn, "SELECT id FROM link WHERE parent = 2", 1)?;
    rows.push_str(below.as_str())?;
    Ok(rows)
}

/// The tables after a statement.
fn damage(alloc: Global, sql: &str) -> Result<Connection<MemStore>, Fail>
    ensures outside { IfOk result (λ conn. HasCleanDisk (state over_memory conn)
        → (state over_memory conn).in_transaction ≡ false) }
    ensures unlimited { IfOk result (λ conn. (state over_memory conn).step_limit ≡ None) }
{
    let mut conn = tables(alloc)?;
    conn.execute(sql, &[])?;
    if !conn.is_autocommit() {
        return Err(Fail::new("the statement began a transaction"));
    }
    Ok(conn)
}

/// They are not migrated, and stay as they are after the statement.
fn stays(rt: &impl Abort, alloc: Global, sql: &str, fault: OpenFault) -> Result<(), Fail> {
    let mut same = damage(alloc, sql)?;
    let before = listing(alloc, &mut same)?;
    let mut conn = damage(alloc, sql)?;
    assert_eq!(rt; (sql, fault_of(alloc, &mut conn)), (sql, Some(fault)));
    let after = listing(alloc, &mut conn)?;
    assert_eq!(rt; after.as_str(), before.as_str());
    Ok(())
}

#[test]
fn others_stay_as_they_are(rt: HostRuntime) -> Result<(), Fail> {
    for (sql, fault) in REFUSED {
        stays(&rt, rt.alloc(), sql, fault)?;
    }
    Ok(())
}

/// Without tables there is no office.
#[test]
fn no_tables_are_brought_over(rt: HostRuntime) -> Result<(), Fail> {
    let alloc = rt.alloc();
    let mut conn = Connection::open_in_memory(alloc)?;
    assert_eq!(rt; fault_of(alloc, &mut conn), Some(OpenFault::NoOffice));
    Ok(())
}
