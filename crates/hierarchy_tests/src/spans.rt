//! Second that no call writes.

use crate::offices::{Row, check_result, new_office};
use catalogue_store::StoreFault;
use nested_sets::SpanPlaces;
use office_tables::{Tables, change};
use sqlite::types::ValueRef::Int;
use sqlite::{Alter, Connection};
use std::alloc::Global;
use std::process::Abort;
use std::test::Fail;

/// Writes these rows.
pub(crate) fn put_all<S: Alter>(
    tables: &mut Tables<SpanPlaces, S>,
    rows: &[Row],
) -> Result<(), StoreFault> {
    for row in rows {
        change(
            tables,
            "INSERT INTO span (id, lft, rgt) VALUES (?1, ?2, ?3)",
            row,
        )?;
    }
    Ok(())
}

/// The units and the height once these rows are written, or a dash if they are defective.
fn told_with<S: Alter>(
    alloc: Global,
    tables: &mut Tables<SpanPlaces, S>,
    rows: &[Row],
) -> Result<String, Fail> {
    put_all(tables, rows)?;
    check_result(alloc, tables)
}

/// The same in a new office.
fn told_of(alloc: Global, rows: &[Row]) -> Result<String, Fail> {
    let mut tables = new_office::<SpanPlaces, _>(alloc, Connection::open_in_memory(alloc)?)?;
    let text = told_with(alloc, &mut tables, rows);
    let _ = tables.into_connection();
    text
}

fn told_of_all(alloc: Global, cases: &[&'static [Row]]) -> Result<String, Fail> {
    let mut text = String::new(alloc);
    for &rows in cases {
        let told = told_of(alloc, rows)?;
        text.push_str(&told)?;
    }
    Ok(text)
}

const TOP: Row = [Int(1), Int(1), Int(2)];

/// No units; one; two below a top, and another top; the deepest in the second tree, the greatest number first.
#[test]
fn spans_of_forests(rt: HostRuntime) -> Result<(), Fail> {
    let cases: [&'static [Row]; 4] = [
        &[],
        &[TOP],
        &[
            [Int(4), Int(7), Int(8)],
            [Int(3), Int(4), Int(5)],
            [Int(2), Int(2), Int(3)],
            [Int(1), Int(1), Int(6)],
        ],
        &[
            [Int(9), Int(1), Int(2)],
            [Int(2), Int(3), Int(8)],
            [Int(7), Int(4), Int(7)],
            [Int(1), Int(5), Int(6)],
        ],
    ];
    let told = told_of_all(rt.alloc(), &cases)?;
    assert_eq!(&rt; told.as_str(), "to 0;1 to 1;1 2 3 4 to 2;1 2 7 9 to 3;");
    Ok(())
}

/// Invalid numbers of units and of places; two spans that begin at the same number, one that ends where it begins, a
/// number that is skipped, two that cross.
#[test]
fn defective_spans(rt: HostRuntime) -> Result<(), Fail> {
    let cases: [&'static [Row]; 11] = [
        &[[Int(0), Int(1), Int(2)]],
        &[[Int(-1), Int(1), Int(2)]],
        &[[Int(100000001), Int(1), Int(2)]],
        &[[Int(1), Int(4294967297), Int(4294967298)]],
        &[[Int(1), Int(1), Int(4294967298)]],
        &[[Int(1), Int(-1), Int(2)]],
        &[TOP, [Int(2), Int(1), Int(2)]],
        &[TOP, [Int(2), Int(3), Int(3)]],
        &[[Int(1), Int(0), Int(1)]],
        &[TOP, [Int(2), Int(4), Int(5)]],
        &[[Int(1), Int(1), Int(3)], [Int(2), Int(2), Int(4)]],
    ];
    let told = told_of_all(rt.alloc(), &cases)?;
    assert_eq!(&rt; told.as_str(), "-----------");
    Ok(())
}
