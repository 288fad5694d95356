//! Rows of the catalogue's tables that no call writes, in either version. What is wrong is found, with its cause.

use crate::offices::new_office;
use crate::{links, offices, spans};
use catalogue_store::{LinkPlaces, StoreFault};
use integrity_checks::{CheckedPlaces, load_check};
use nested_sets::SpanPlaces;
use office_tables::{Tables, Versioned, change};
use sqlite::types::ValueRef;
use sqlite::types::ValueRef::{Int, Null, Text};
use sqlite::{Alter, Connection};
use std::alloc::Global;
use std::process::Abort;
use std::test::Fail;

/// What a statement changes.
#[derive(Clone, Copy)]
enum Row {
    /// A number, a source, a number there, a level and whether it is a draft; it is not closed.
    Unit,
    /// A unit that is removed.
    Gone,
    /// A unit and its level.
    Level,
    /// A unit and whether it is a draft.
    Draft,
    /// A unit and the day until which it is closed.
    Until,
    /// A unit, the place of an element and its text.
    Element,
    /// A number, a name, a location and a kind.
    Container,
    /// A unit, a place in its order and a container.
    Housing,
}

/// A row, whatever its cells are.
type Write = (Row, &'static [ValueRef<'static>]);

/// Writes a row with one of the catalogue's statements.
fn put<P: Versioned, S: Alter>(
    tables: &mut Tables<P, S>,
    row: Row,
    cells: &[ValueRef<'_>],
) -> Result<(), StoreFault> {
    match row {
        Row::Unit => change(tables, PUT_UNIT, cells),
        Row::Gone => change(tables, REMOVE_UNIT, cells),
        Row::Level => change(tables, SET_LEVEL, cells),
        Row::Draft => change(tables, SET_DRAFT, cells),
        Row::Until => change(tables, SET_UNTIL, cells),
        Row::Element => change(tables, PUT_ELEMENT, cells),
        Row::Container => change(tables, PUT_CONTAINER, cells),
        Row::Housing => change(tables, PUT_HOUSING, cells),
    }
}

const PUT_UNIT: &str =
    "INSERT INTO unit (id, source, legacy, level, draft, until) VALUES (?1, ?2, ?3, ?4, ?5, NULL)";

const REMOVE_UNIT: &str = "DELETE FROM unit WHERE id = ?1";

const SET_LEVEL: &str = "UPDATE unit SET level = ?2 WHERE id = ?1";

const SET_DRAFT: &str = "UPDATE unit SET draft = ?2 WHERE id = ?1";

const SET_UNTIL: &str = "UPDATE unit SET until = ?2 WHERE id = ?1";

const PUT_ELEMENT: &str = "INSERT INTO element (unit, k, value) VALUES (?1, ?2, ?3)";

const PUT_CONTAINER: &str =
    "INSERT INTO container (id, name, location, kind) VALUES (?1, ?2, ?3, ?4)";

const PUT_HOUSING: &str = "INSERT INTO housing (unit, ord, container) VALUES (?1, ?2, ?3)";

/// Writes rows, one after the other.
fn put_all<P: Versioned, S: Alter>(
    tables: &mut Tables<P, S>,
    writes: &[Write],
) -> Result<(), StoreFault> {
    for write in writes {
        let (row, cells) = *write;
        put(tables, row, cells)?;
    }
    Ok(())
}

/// Two units below a top, one of them a draft, and another top of another source; an element of three of them; and two
/// containers, both of them the first unit's and one also the third's.
const CATALOGUE: [Write; 12] = [
    (
        Row::Unit,
        &[Int(1), Text(b"a"), Text(b"1"), Text(b"Fonds"), Int(0)],
    ),
    (
        Row::Unit,
        &[Int(2), Text(b"a"), Text(b"2"), Text(b""), Int(0)],
    ),
    (
        Row::Unit,
        &[Int(3), Text(b"a"), Text(b"3"), Text(b"Series"), Int(1)],
    ),
    (
        Row::Unit,
        &[Int(4), Text(b"b"), Text(b"1"), Text(b""), Int(0)],
    ),
    (Row::Element, &[Int(1), Int(2), Text(b"Docks")]),
    (Row::Element, &[Int(2), Int(2), Text(b"Minutes")]),
    (Row::Element, &[Int(4), Int(25), Text(b"ISAD(G)")]),
    (
        Row::Container,
        &[Int(1), Text(b"Box 1"), Text(b"Strongroom 1"), Text(b"")],
    ),
    (
        Row::Container,
        &[Int(2), Text(b"Box 2"), Text(b""), Text(b"")],
    ),
    (Row::Housing, &[Int(1), Int(1), Int(2)]),
    (Row::Housing, &[Int(1), Int(2), Int(1)]),
    (Row::Housing, &[Int(3), Int(1), Int(1)]),
];

const LINKS: [offices::Row; 4] = [
    [Int(1), Null, Int(1)],
    [Int(2), Int(1), Int(1)],
    [Int(3), Int(1), Int(2)],
    [Int(4), Null, Int(2)],
];

const SPANS: [offices::Row; 4] = [
    [Int(1), Int(1), Int(6)],
    [Int(2), Int(2), Int(3)],
    [Int(3), Int(4), Int(5)],
    [Int(4), Int(7), Int(8)],
];

/// The cause that the check finds if `next` is the number of the next unit, or 0.
fn defect<P: CheckedPlaces, S: Alter>(
    alloc: Global,
    tables: &mut Tables<P, S>,
    next: u64,
) -> Result<u8, StoreFault> {
    let defect = load_check(alloc, tables, next)?;
    Ok(match defect {
        Some(defect) => defect.cause(),
        None => 0,
    })
}

/// The same for the catalogue over links, with these places and then these rows added.
fn told_with_links<S: Alter>(
    alloc: Global,
    tables: &mut Tables<LinkPlaces, S>,
    places: &[offices::Row],
    writes: &[Write],
    next: u64,
) -> Result<u8, StoreFault> {
    links::put_all(tables, &LINKS)?;
    links::put_all(tables, places)?;
    put_all(tables, &CATALOGUE)?;
    put_all(tables, writes)?;
    defect(alloc, tables, next)
}

/// The same over spans.
fn told_with_spans<S: Alter>(
    alloc: Global,
    tables: &mut Tables<SpanPlaces, S>,
    places: &[offices::Row],
    writes: &[Write],
    next: u64,
) -> Result<u8, StoreFault> {
    spans::put_all(tables, &SPANS)?;
    spans::put_all(tables, places)?;
    put_all(tables, &CATALOGUE)?;
    put_all(tables, writes)?;
    defect(alloc, tables, next)
}

/// The cause that the check finds in a new office, or 0.
fn told_over_links(
    alloc: Global,
    places: &[offices::Row],
    writes: &[Write],
    next: u64,
) -> Result<u8, Fail> {
    let mut tables = new_office::<LinkPlaces, _>(alloc, Connection::open_in_memory(alloc)?)?;
    let cause = told_with_links(alloc, &mut tables, places, writes, next);
    let _ = tables.into_connection();
    Ok(cause?)
}

/// The same over spans.
fn told_over_spans(
    alloc: Global,
    places: &[offices::Row],
    writes: &[Write],
    next: u64,
) -> Result<u8, Fail> {
    let mut tables = new_office::<SpanPlaces, _>(alloc, Connection::open_in_memory(alloc)?)?;
    let cause = told_with_spans(alloc, &mut tables, places, writes, next);
    let _ = tables.into_connection();
    Ok(cause?)
}

/// The next number, what is written into the catalogue, and the cause that is found in either version, or 0.
type Case = (u64, &'static [Write], u8);

fn see(rt: &impl Abort, alloc: Global, cases: &[Case]) -> Result<(), Fail> {
    for (at, &(next, writes, wanted)) in cases.iter().enumerate() {
        let over_links = told_over_links(alloc, &[], writes, next)?;
        assert_eq!(rt; over_links, wanted, "case {at} over links");
        let over_spans = told_over_spans(alloc, &[], writes, next)?;
        assert_eq!(rt; over_spans, wanted, "case {at} over spans");
    }
    Ok(())
}

/// A text of 64 characters.
const LONG: ValueRef<'static> = Text(
    b"0123456789abcdef0123456789abcdef0123456789abcdef0123456789abcdef",
);

/// The catalogue as it is; the first and the last day of the calendar; the first and the last of the elements; a
/// container with nothing in it, and a name that another container has elsewhere; the longest name of a source.
#[test]
fn sound_catalogues_have_no_defect(rt: HostRuntime) -> Result<(), Fail> {
    let cases: [Case; 10] = [
        (5, &[], 0),
        (100_000_001, &[], 0),
        (5, &[(Row::Draft, &[Int(1), Int(1)])], 0),
        (5, &[(Row::Until, &[Int(1), Int(-25567)])], 0),
        (5, &[(Row::Until, &[Int(1), Int(2932896)])], 0),
        (5, &[(Row::Element, &[Int(3), Int(1), Text(b"x")])], 0),
        (
            5,
            &[(Row::Element, &[Int(3), Int(26), Text(b"\xC2\xA0")])],
            0,
        ),
        (
            5,
            &[(
                Row::Container,
                &[Int(3), Text(b"Box 1"), Text(b""), Text(b"")],
            )],
            0,
        ),
        (5, &[(Row::Housing, &[Int(2), Int(1), Int(2)])], 0),
        (
            5,
            &[
                GONE,
                (Row::Unit, &[Int(4), LONG, Text(b"1"), Text(b""), Int(1)]),
            ],
            0,
        ),
    ];
    see(&rt, rt.alloc(), &cases)
}

/// Unit 4 is removed, and its place stays.
const GONE: Write = (Row::Gone, &[Int(4)]);

/// Numbers that are not below the next; a unit without a place, and a place without a unit; neither draft nor
/// published; days outside the calendar.
#[test]
fn defective_units_are_reported(rt: HostRuntime) -> Result<(), Fail> {
    let cases: [Case; 12] = [
        (4, &[], 3),
        (0, &[], 3),
        (5, &[GONE], 3),
        (6, &[(Row::Unit, &[Int(5), LONG, LONG, LONG, Int(0)])], 3),
        (5, &[(Row::Unit, &[Int(0), LONG, LONG, LONG, Int(0)])], 3),
        (5, &[(Row::Unit, &[Int(-1), LONG, LONG, LONG, Int(0)])], 3),
        (5, &[(Row::Draft, &[Int(1), Int(2)])], 3),
        (5, &[(Row::Draft, &[Int(1), Int(-1)])], 3),
        (5, &[(Row::Until, &[Int(1), Int(-25568)])], 3),
        (5, &[(Row::Until, &[Int(1), Int(2932897)])], 3),
        (5, &[(Row::Level, &[Int(1), Text(b"Fonds\xFF")])], 3),
        (5, &[(Row::Level, &[Int(1), Text(b"\xC0\x80")])], 3),
    ];
    see(&rt, rt.alloc(), &cases)
}

/// Names that no source can have, numbers there that are blank, and texts that are not UTF-8.
#[test]
fn defective_names_are_reported(rt: HostRuntime) -> Result<(), Fail> {
    let cases: [Case; 8] = [
        (
            5,
            &[
                GONE,
                (
                    Row::Unit,
                    &[Int(4), Text(b"b.B_0-"), Text(b"1"), Text(b""), Int(0)],
                ),
            ],
            0,
        ),
        (
            5,
            &[
                GONE,
                (
                    Row::Unit,
                    &[Int(4), Text(b""), Text(b"1"), Text(b""), Int(0)],
                ),
            ],
            3,
        ),
        (
            5,
            &[
                GONE,
                (
                    Row::Unit,
                    &[Int(4), Text(b"a b"), Text(b"1"), Text(b""), Int(0)],
                ),
            ],
            3,
        ),
        (
            5,
            &[
                GONE,
                (
                    Row::Unit,
                    &[Int(4), Text(b"\xC3\xA9"), Text(b"1"), Text(b""), Int(0)],
                ),
            ],
            3,
        ),
        (
            5,
            &[
                GONE,
                (
                    Row::Unit,
                    &[Int(4), Text(b"b\xFF"), Text(b"1"), Text(b""), Int(0)],
                ),
            ],
            3,
        ),
        (
            5,
            &[
                GONE,
                (
                    Row::Unit,
                    &[Int(4), Text(b"b"), Text(b""), Text(b""), Int(0)],
                ),
            ],
            3,
        ),
        (
            5,
            &[
                GONE,
                (
                    Row::Unit,
                    &[Int(4), Text(b"b"), Text(b" \t\r\n"), Text(b""), Int(0)],
                ),
            ],
            3,
        ),
        (
            5,
            &[
                GONE,
                (
                    Row::Unit,
                    &[Int(4), Text(b"b"), Text(b"1\xFF"), Text(b""), Int(0)],
                ),
            ],
            3,
        ),
    ];
    see(&rt, rt.alloc(), &cases)
}

/// Invalid elements, the level among them, and texts that are blank or not UTF-8.
#[test]
fn defective_elements_are_reported(rt: HostRuntime) -> Result<(), Fail> {
    let cases: [Case; 7] = [
        (5, &[(Row::Element, &[Int(2), Int(27), Text(b"x")])], 4),
        (5, &[(Row::Element, &[Int(2), Int(0), Text(b"x")])], 4),
        (5, &[(Row::Element, &[Int(2), Int(-1), Text(b"x")])], 4),
        (5, &[(Row::Element, &[Int(2), Int(4), Text(b"x")])], 4),
        (5, &[(Row::Element, &[Int(2), Int(5), Text(b"")])], 4),
        (5, &[(Row::Element, &[Int(2), Int(5), Text(b" \t\r\n")])], 4),
        (5, &[(Row::Element, &[Int(2), Int(5), Text(b"x\xFF")])], 4),
    ];
    see(&rt, rt.alloc(), &cases)
}

const THIRD_BOX: Write = (
    Row::Container,
    &[Int(3), Text(b"Box 3"), Text(b""), Text(b"")],
);

/// A number that is skipped or invalid; a blank name, and texts that are not UTF-8; a place that is skipped or invalid,
/// and containers that do not exist.
#[test]
fn defective_containers_are_reported(rt: HostRuntime) -> Result<(), Fail> {
    let cases: [Case; 16] = [
        (
            5,
            &[(
                Row::Container,
                &[Int(4), Text(b"Box 4"), Text(b""), Text(b"")],
            )],
            5,
        ),
        (
            5,
            &[(
                Row::Container,
                &[Int(0), Text(b"Box 0"), Text(b""), Text(b"")],
            )],
            5,
        ),
        (
            5,
            &[(
                Row::Container,
                &[Int(-1), Text(b"Box 3"), Text(b""), Text(b"")],
            )],
            5,
        ),
        (
            5,
            &[(Row::Container, &[Int(3), Text(b""), Text(b""), Text(b"")])],
            5,
        ),
        (
            5,
            &[(
                Row::Container,
                &[Int(3), Text(b" "), Text(b"here"), Text(b"")],
            )],
            5,
        ),
        (
            5,
            &[(
                Row::Container,
                &[Int(3), Text(b"Box\xFF"), Text(b""), Text(b"")],
            )],
            5,
        ),
        (
            5,
            &[(
                Row::Container,
                &[Int(3), Text(b"Box 3"), Text(b"\xFF"), Text(b"")],
            )],
            5,
        ),
        (
            5,
            &[(
                Row::Container,
                &[Int(3), Text(b"Box 3"), Text(b""), Text(b"\xFF")],
            )],
            5,
        ),
        (5, &[(Row::Housing, &[Int(2), Int(2), Int(2)])], 5),
        (5, &[(Row::Housing, &[Int(2), Int(0), Int(2)])], 5),
        (5, &[(Row::Housing, &[Int(2), Int(-1), Int(2)])], 5),
        (5, &[(Row::Housing, &[Int(2), Int(1), Int(3)])], 5),
        (5, &[(Row::Housing, &[Int(2), Int(1), Int(0)])], 5),
        (5, &[(Row::Housing, &[Int(2), Int(1), Int(-1)])], 5),
        (
            5,
            &[THIRD_BOX, (Row::Housing, &[Int(1), Int(4), Int(3)])],
            5,
        ),
        (
            5,
            &[THIRD_BOX, (Row::Housing, &[Int(1), Int(3), Int(3)])],
            0,
        ),
    ];
    see(&rt, rt.alloc(), &cases)
}

/// An invalid element.
const NO_ELEMENT: Write = (Row::Element, &[Int(2), Int(27), Text(b"x")]);

/// A container in a place that is not allowed.
const NO_PLACE: Write = (Row::Housing, &[Int(2), Int(2), Int(2)]);

/// Neither draft nor published.
const NO_STATUS: Write = (Row::Draft, &[Int(1), Int(2)]);

/// A unit whose parent does not exist.
const LOST: offices::Row = [Int(5), Int(9), Int(1)];

/// Two units whose spans cross.
const CROSSING: [offices::Row; 2] = [[Int(5), Int(9), Int(11)], [Int(6), Int(10), Int(12)]];

/// Of several causes the first is found, whichever was written first; that of the places comes before all others.
#[test]
fn the_first_defect_is_reported(rt: HostRuntime) -> Result<(), Fail> {
    let cases: [Case; 4] = [
        (5, &[NO_PLACE, NO_ELEMENT, NO_STATUS], 3),
        (5, &[NO_STATUS, NO_ELEMENT, NO_PLACE], 3),
        (4, &[NO_PLACE, NO_ELEMENT], 3),
        (5, &[NO_PLACE, NO_ELEMENT], 4),
    ];
    see(&rt, rt.alloc(), &cases)?;
    let all = [NO_PLACE, NO_ELEMENT, NO_STATUS];
    assert_eq!(rt; told_over_links(rt.alloc(), &[LOST], &all, 5)?, 2);
    assert_eq!(rt; told_over_spans(rt.alloc(), &CROSSING, &all, 5)?, 2);
    Ok(())
}
