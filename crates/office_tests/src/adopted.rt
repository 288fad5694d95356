//! Offices opened over existing tables: why tables that one statement has damaged are refused, and how the day goes on
//! over good ones.

ghost use Rattle.std.specs.Prelude.{◌≡◌, false, IfOk, None};
ghost use Rattle.sqlite.specs.Held.{state};
ghost use Rattle.sqlite.specs.State.{HasCleanDisk};
ghost use Rattle.sqlite.specs.Steps.{over_memory};

use crate::calls::{Said, all_rows};
use crate::offices::{BOXES, in_memory};
use catalogue_store::{LinkPlaces, Places};
use integrity_checks::CheckedPlaces;
use nested_sets::SpanPlaces;
use office::{Office, OpenFault};
use sqlite::{Alter, Connection, MemStore};
use std::alloc::Global;
use std::process::Abort;
use std::test::Fail;

/// The first reader has a box, and another waits for it.
const MORNING: [Said; 8] = [
    Said::Import(BOXES),
    Said::Register,
    Said::Register,
    Said::Order(1, 1),
    Said::Order(2, 1),
    Said::Run,
    Said::Sit(1),
    Said::Issue(1, 1),
];

/// A statement on the tables of a morning, and why no office is opened over the result.
type Damage = (&'static str, OpenFault);

/// On tables that both versions have.
const ANYWHERE: [Damage; 31] = [
    ("DROP TABLE office", OpenFault::NoOffice),
    ("DELETE FROM office", OpenFault::NoOffice),
    (
        "INSERT INTO office SELECT 2, version, country, repo, seats, daily, hands, run_size, day, next_unit FROM office",
        OpenFault::NoOffice,
    ),
    (
        "CREATE TABLE more (id INTEGER PRIMARY KEY)",
        OpenFault::Schema,
    ),
    ("DROP TABLE permit", OpenFault::Schema),
    ("CREATE INDEX more ON unit (level)", OpenFault::Schema),
    ("UPDATE office SET version = 3", OpenFault::Unsound(1)),
    ("UPDATE office SET version = -1", OpenFault::Unsound(1)),
    ("UPDATE office SET one = 2", OpenFault::Unsound(1)),
    ("UPDATE office SET seats = 0", OpenFault::Unsound(1)),
    ("UPDATE office SET seats = -1", OpenFault::Unsound(1)),
    ("UPDATE office SET country = 'gb'", OpenFault::Unsound(1)),
    (
        "UPDATE office SET next_unit = 100000002",
        OpenFault::Unsound(1),
    ),
    ("UPDATE office SET next_unit = 4", OpenFault::Unsound(3)),
    ("UPDATE unit SET draft = 2", OpenFault::Unsound(3)),
    ("DELETE FROM unit WHERE id = 4", OpenFault::Unsound(3)),
    (
        "UPDATE element SET value = ' ' WHERE unit = 1 AND k = 2",
        OpenFault::Unsound(4),
    ),
    (
        "UPDATE element SET k = 4 WHERE unit = 1 AND k = 2",
        OpenFault::Unsound(4),
    ),
    (
        "UPDATE housing SET ord = 2 WHERE unit = 1",
        OpenFault::Unsound(5),
    ),
    (
        "UPDATE container SET name = '' WHERE id = 4",
        OpenFault::Unsound(5),
    ),
    (
        "UPDATE container SET name = CAST(x'ff' AS TEXT) WHERE id = 4",
        OpenFault::Unsound(5),
    ),
    ("UPDATE seat SET seat = 3", OpenFault::Unsound(6)),
    (
        "UPDATE reader SET ticket = 3 WHERE ticket = 2",
        OpenFault::Unsound(6),
    ),
    (
        "INSERT INTO permit VALUES (99, 1, 19783)",
        OpenFault::Unsound(6),
    ),
    (
        "UPDATE orders SET day = 19784 WHERE id = 2",
        OpenFault::Unsound(7),
    ),
    (
        "UPDATE orders SET state = 3 WHERE id = 1",
        OpenFault::Unsound(8),
    ),
    ("UPDATE run_line SET order_no = 2", OpenFault::Unsound(9)),
    ("UPDATE run SET day = 19784", OpenFault::Unsound(9)),
    ("DELETE FROM seat", OpenFault::Unsound(10)),
    (
        "UPDATE unit SET draft = 1 WHERE id = 1",
        OpenFault::Unsound(10),
    ),
    (
        "UPDATE unit SET until = 19784 WHERE id = 1",
        OpenFault::Unsound(10),
    ),
];

/// On tables of version 1.
const IN_LINKS: [Damage; 4] = [
    ("UPDATE office SET version = 2", OpenFault::NewVersion),
    (
        "UPDATE link SET parent = 1 WHERE id = 1",
        OpenFault::Unsound(2),
    ),
    (
        "UPDATE link SET ord = 1 WHERE id = 2",
        OpenFault::Unsound(2),
    ),
    ("DELETE FROM link WHERE id = 4", OpenFault::Unsound(3)),
];

/// On tables of version 2.
const IN_SPANS: [Damage; 4] = [
    ("UPDATE office SET version = 1", OpenFault::OldVersion),
    (
        "UPDATE span SET rgt = 9 WHERE id = 4",
        OpenFault::Unsound(2),
    ),
    (
        "UPDATE span SET lft = -1 WHERE id = 1",
        OpenFault::Unsound(2),
    ),
    ("DELETE FROM span WHERE id = 4", OpenFault::Unsound(3)),
];

fn expect_verdict<P: Places, S: Alter>(
    alloc: Global,
    office: &mut Office<P, S>,
    all: &[Said],
) -> Result<(), Fail> {
    for each in all {
        let _ = all_rows(alloc, office, *each)?;
    }
    Ok(())
}

/// The tables of a morning.
fn after_a_morning<P: Places>(alloc: Global) -> Result<Connection<MemStore>, Fail>
    ensures outside { IfOk result (λ conn. HasCleanDisk (state over_memory conn)
        → (state over_memory conn).in_transaction ≡ false) }
    ensures unlimited { IfOk result (λ conn. (state over_memory conn).step_limit ≡ None) }
{
    let mut office = in_memory::<P>(alloc)?;
    let done = expect_verdict(alloc, &mut office, &MORNING);
    let conn = office.into_connection();
    done?;
    Ok(conn)
}

/// Opens an office. Want of memory changes nothing, so it is tried again.
pub(crate) fn open_again<P: CheckedPlaces>(
    alloc: Global,
    conn: Connection<MemStore>,
) -> Result<Office<P, MemStore>, OpenFault>
    requires outside { HasCleanDisk (state over_memory conn) → (state over_memory conn).in_transaction ≡ false }
    requires unlimited { (state over_memory conn).step_limit ≡ None }
{
    match Office::<P, MemStore>::adopt(alloc, conn) {
        Ok(office) => Ok(office),
        Err((OpenFault::Memory, conn)) => match Office::<P, MemStore>::adopt(alloc, conn) {
            Ok(office) => Ok(office),
            Err((fault, _)) => Err(fault),
        },
        Err((fault, _)) => Err(fault),
    }
}

/// Why no office is opened, or none if one is.
fn fault_of<P: CheckedPlaces>(alloc: Global, conn: Connection<MemStore>) -> Option<OpenFault>
    requires outside { HasCleanDisk (state over_memory conn) → (state over_memory conn).in_transaction ≡ false }
    requires unlimited { (state over_memory conn).step_limit ≡ None }
{
    match open_again::<P>(alloc, conn) {
        Ok(office) => {
            let _ = office.into_connection();
            None
        }
        Err(fault) => Some(fault),
    }
}

fn after<P: CheckedPlaces>(alloc: Global, sql: &str) -> Result<Option<OpenFault>, Fail> {
    let mut conn = after_a_morning::<P>(alloc)?;
    conn.execute(sql, &[])?;
    if !conn.is_autocommit() {
        return Err(Fail::new("the statement began a transaction"));
    }
    Ok(fault_of::<P>(alloc, conn))
}

fn damages_are_told<P: CheckedPlaces>(
    rt: &impl Abort,
    alloc: Global,
    damages: &[Damage],
) -> Result<(), Fail> {
    for (sql, fault) in damages {
        let told = after::<P>(alloc, sql)?;
        assert_eq!(rt; (*sql, told), (*sql, Some(*fault)));
    }
    Ok(())
}

#[test]
fn damages_over_links(rt: HostRuntime) -> Result<(), Fail> {
    damages_are_told::<LinkPlaces>(&rt, rt.alloc(), &ANYWHERE)
}

#[test]
fn damages_over_spans(rt: HostRuntime) -> Result<(), Fail> {
    damages_are_told::<SpanPlaces>(&rt, rt.alloc(), &ANYWHERE)
}

#[test]
fn damaged_links(rt: HostRuntime) -> Result<(), Fail> {
    damages_are_told::<LinkPlaces>(&rt, rt.alloc(), &IN_LINKS)
}

#[test]
fn damaged_spans(rt: HostRuntime) -> Result<(), Fail> {
    damages_are_told::<SpanPlaces>(&rt, rt.alloc(), &IN_SPANS)
}

/// Nobody else gets the box that is out, and it is returned.
const EVENING: [(Said, &str); 2] = [
    (Said::Issue(1, 2), "{\"code\":14,\"refused\":\"NotAtDesk\"}"),
    (Said::Return(1), "{\"order\":1}"),
];

fn evening_in<P: Places, S: Alter>(
    rt: &impl Abort,
    alloc: Global,
    office: &mut Office<P, S>,
) -> Result<(), Fail> {
    for (said, wanted) in EVENING {
        let text = all_rows(alloc, office, said)?;
        assert_eq!(rt; text.as_slice(), wanted.as_bytes());
    }
    Ok(())
}

/// The day goes on where it was left.
fn goes_on<P: CheckedPlaces>(rt: &impl Abort, alloc: Global) -> Result<(), Fail> {
    let conn = after_a_morning::<P>(alloc)?;
    let mut office = open_again::<P>(alloc, conn)?;
    let gone = evening_in(rt, alloc, &mut office);
    let _ = office.into_connection();
    gone
}

#[test]
fn a_day_goes_on_over_links(rt: HostRuntime) -> Result<(), Fail> {
    goes_on::<LinkPlaces>(&rt, rt.alloc())
}

#[test]
fn a_day_goes_on_over_spans(rt: HostRuntime) -> Result<(), Fail> {
    goes_on::<SpanPlaces>(&rt, rt.alloc())
}

/// Without tables there is no office.
#[test]
fn no_tables(rt: HostRuntime) -> Result<(), Fail> {
    let alloc = rt.alloc();
    let conn = Connection::open_in_memory(alloc)?;
    assert_eq!(rt;
        fault_of::<SpanPlaces>(alloc, conn),
        Some(OpenFault::NoOffice)
    );
    Ok(())
}

/// An office is opened as one of its own version only.
#[test]
fn the_other_version(rt: HostRuntime) -> Result<(), Fail> {
    let alloc = rt.alloc();
    let links = after_a_morning::<LinkPlaces>(alloc)?;
    assert_eq!(rt;
        fault_of::<SpanPlaces>(alloc, links),
        Some(OpenFault::OldVersion)
    );
    let spans = after_a_morning::<SpanPlaces>(alloc)?;
    assert_eq!(rt;
        fault_of::<LinkPlaces>(alloc, spans),
        Some(OpenFault::NewVersion)
    );
    Ok(())
}
