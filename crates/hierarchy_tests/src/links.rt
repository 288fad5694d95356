//! First that no call writes.

use crate::offices::{Row, check_result, new_office};
use catalogue_store::{LinkPlaces, StoreFault};
use office_tables::{Tables, change};
use sqlite::types::ValueRef::{Int, Null};
use sqlite::{Alter, Connection};
use std::alloc::Global;
use std::process::Abort;
use std::test::Fail;

/// Writes these rows.
pub(crate) fn put_all<S: Alter>(
    tables: &mut Tables<LinkPlaces, S>,
    rows: &[Row],
) -> Result<(), StoreFault> {
    for row in rows {
        change(
            tables,
            "INSERT INTO link (id, parent, ord) VALUES (?1, ?2, ?3)",
            row,
        )?;
    }
    Ok(())
}

/// The units and the height once these rows are written, or a dash if they are defective.
fn told_with<S: Alter>(
    alloc: Global,
    tables: &mut Tables<LinkPlaces, S>,
    rows: &[Row],
) -> Result<String, Fail> {
    put_all(tables, rows)?;
    check_result(alloc, tables)
}

/// The same in a new office.
fn told_of(alloc: Global, rows: &[Row]) -> Result<String, Fail> {
    let mut tables = new_office::<LinkPlaces, _>(alloc, Connection::open_in_memory(alloc)?)?;
    let text = told_with(alloc, &mut tables, rows);
    let _ = tables.into_connection();
    text
}

fn told_of_all(alloc: Global, cases: &[&'static [Row]]) -> Result<String, Fail> {
    let mut text = String::new(alloc);
    for &rows in cases {
        let told = told_of(alloc, rows)?;
        text.push_str(&told)?;
    }
    Ok(text)
}

const TOP: Row = [Int(1), Null, Int(1)];

/// No units; one; two below one another under a top, and another top; the deepest in the second tree; the highest
/// number.
#[test]
fn links_of_forests(rt: HostRuntime) -> Result<(), Fail> {
    let cases: [&'static [Row]; 5] = [
        &[],
        &[TOP],
        &[
            [Int(4), Null, Int(2)],
            [Int(3), Int(2), Int(1)],
            [Int(2), Int(1), Int(1)],
            TOP,
        ],
        &[
            TOP,
            [Int(9), Null, Int(2)],
            [Int(3), Int(9), Int(1)],
            [Int(2), Int(3), Int(1)],
            [Int(7), Int(9), Int(2)],
        ],
        &[[Int(100000000), Null, Int(1)]],
    ];
    let told = told_of_all(rt.alloc(), &cases)?;
    assert_eq!(&rt;
        told.as_str(),
        "to 0;1 to 1;1 2 3 4 to 3;1 2 3 7 9 to 3;100000000 to 1;"
    );
    Ok(())
}

/// Invalid numbers of units and of parents; a parent without a row; places that are too large or negative, a place that
/// occurs twice, is skipped or is too low; circles.
#[test]
fn defective_links(rt: HostRuntime) -> Result<(), Fail> {
    let cases: [&'static [Row]; 14] = [
        &[[Int(0), Null, Int(1)]],
        &[[Int(-1), Null, Int(1)]],
        &[[Int(100000001), Null, Int(1)]],
        &[TOP, [Int(2), Int(0), Int(1)]],
        &[TOP, [Int(2), Int(-1), Int(1)]],
        &[TOP, [Int(2), Int(9), Int(1)]],
        &[TOP, [Int(2), Null, Int(4294967298)]],
        &[[Int(1), Null, Int(4294967297)]],
        &[TOP, [Int(2), Null, Int(-2)]],
        &[TOP, [Int(2), Null, Int(1)]],
        &[TOP, [Int(2), Null, Int(3)]],
        &[TOP, [Int(2), Null, Int(0)]],
        &[[Int(1), Int(1), Int(1)]],
        &[TOP, [Int(2), Int(3), Int(1)], [Int(3), Int(2), Int(1)]],
    ];
    let told = told_of_all(rt.alloc(), &cases)?;
    assert_eq!(&rt; told.as_str(), "--------------");
    Ok(())
}
