//! Calls that the catalogue's store does not accept, in either version: each blames the schema and changes no row.

use crate::tests::{
    ELEMENTS, FOUR, HOUSING, LATER, LINKS, MAPS, Query, SPANS, add, four_units, new_office,
    show_rows, values_of,
};
use catalogue_store::{LinkPlaces, Places, StoreFault, move_unit, replace_values};
use isad_core::Number;
use nested_sets::SpanPlaces;
use office_tables::Tables;
use sqlite::{Alter, Connection};
use std::alloc::Global;
use std::process::Abort;
use std::test::Fail;

/// A call that is not accepted if there are units 1 to 4, and unit 2 is below unit 1.
#[derive(Clone, Copy)]
enum Slip {
    AddBelowNone,
    ReplaceNone,
    MoveNone,
    MoveBelowNone,
    MoveBelowItself,
    MoveIntoItsBranch,
}

/// Makes the call.
fn attempt<P: Places, S: Alter>(
    alloc: Global,
    tables: &mut Tables<P, S>,
    done: Slip,
) -> Result<(), StoreFault> {
    match done {
        Slip::AddBelowNone => add(alloc, tables, 5, Some(9), MAPS),
        Slip::ReplaceNone => {
            let later = values_of(alloc, LATER)?;
            replace_values(alloc, tables, Number::from(9), &later)
        }
        Slip::MoveNone => move_unit(alloc, tables, Number::from(9), None),
        Slip::MoveBelowNone => move_unit(alloc, tables, Number::from(2), Some(Number::from(9))),
        Slip::MoveBelowItself => move_unit(alloc, tables, Number::from(2), Some(Number::from(2))),
        Slip::MoveIntoItsBranch => move_unit(alloc, tables, Number::from(1), Some(Number::from(2))),
    }
}

/// The result of the call with four units.
fn attempt_with_four<P: Places, S: Alter>(
    alloc: Global,
    tables: &mut Tables<P, S>,
    done: Slip,
) -> Result<(), StoreFault> {
    four_units(alloc, tables)?;
    attempt(alloc, tables, done)
}

/// Checks that the call blames the schema and that these rows are there afterwards.
fn see_over<P: Places>(
    rt: &impl Abort,
    alloc: Global,
    done: Slip,
    places: Query,
    rows: &str,
) -> Result<(), Fail> {
    let mut tables = new_office::<P, _>(alloc, Connection::open_in_memory(alloc)?)?;
    let outcome = attempt_with_four(alloc, &mut tables, done);
    let mut conn = tables.into_connection();
    assert!(rt; outcome == Err(StoreFault::Schema));
    let mut text = String::new(alloc);
    for query in [ELEMENTS, HOUSING, places] {
        show_rows(&mut text, &mut conn, query)?;
    }
    let wanted = format!(in alloc; "{}{rows}", FOUR.told)?;
    assert_eq!(rt; text.as_str(), wanted.as_str());
    Ok(())
}

#[test]
fn what_is_not_accepted_changes_no_row(rt: HostRuntime) -> Result<(), Fail> {
    let slips: [Slip; 6] = [
        Slip::AddBelowNone,
        Slip::ReplaceNone,
        Slip::MoveNone,
        Slip::MoveBelowNone,
        Slip::MoveBelowItself,
        Slip::MoveIntoItsBranch,
    ];
    for done in slips {
        see_over::<LinkPlaces>(&rt, rt.alloc(), done, LINKS, FOUR.links)?;
        see_over::<SpanPlaces>(&rt, rt.alloc(), done, SPANS, FOUR.spans)?;
    }
    Ok(())
}
