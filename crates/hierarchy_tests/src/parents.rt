//! The units right above many, in either version.

use crate::offices::new_office;
use catalogue_store::{LinkPlaces, Places, StoreFault};
use isad_core::Number;
use nested_sets::SpanPlaces;
use office_tables::Tables;
use sqlite::{Alter, Connection};
use std::alloc::{AllocError, Global};
use std::process::Abort;
use std::test::Fail;

/// A unit, and its parent, below which it comes last, or none.
pub(crate) type Place = (u32, Option<u32>);

/// A chain of four, whose second unit has a sibling; a top alone; three units below one top.
pub(crate) const FOREST: [Place; 10] = [
    (7, None),
    (2, Some(7)),
    (3, Some(2)),
    (4, Some(3)),
    (5, Some(7)),
    (6, None),
    (1, None),
    (10, Some(1)),
    (9, Some(1)),
    (8, Some(1)),
];

/// Puts a unit at its place.
fn put<P: Places, S: Alter>(
    alloc: Global,
    tables: &mut Tables<P, S>,
    place: Place,
) -> Result<(), StoreFault> {
    let (unit, above) = place;
    P::add(alloc, tables, above.map(Number::from), Number::from(unit))
}

/// Puts the units of a forest at their places, one after another.
pub(crate) fn put_all<P: Places, S: Alter>(
    alloc: Global,
    tables: &mut Tables<P, S>,
    forest: &[Place],
) -> Result<(), StoreFault> {
    for place in forest {
        put(alloc, tables, *place)?;
    }
    Ok(())
}

/// These numbers, as a store takes them.
fn numbers(alloc: Global, units: &[u32]) -> Result<Vec<Number>, AllocError> {
    units.iter().map(|unit| Number::from(*unit)).collect(alloc)
}

/// The numbers of the units right above these in the forest, with a dash for none.
fn listing<P: Places, S: Alter>(
    alloc: Global,
    tables: &mut Tables<P, S>,
    units: &[u32],
) -> Result<String, Fail> {
    put_all(alloc, tables, &FOREST)?;
    let units = numbers(alloc, units)?;
    let mut text = String::new(alloc);
    for above in &P::parents(alloc, tables, &units)? {
        match above {
            Some(above) => write!(text, "{} ", above.get())?,
            None => write!(text, "- ")?,
        }
    }
    Ok(text)
}

/// The same, in a new office.
fn told_of<P: Places>(alloc: Global, units: &[u32]) -> Result<String, Fail> {
    let mut tables = new_office::<P, _>(alloc, Connection::open_in_memory(alloc)?)?;
    let text = listing(alloc, &mut tables, units);
    let _ = tables.into_connection();
    text
}

/// Units, and the units right above them in either version.
type Case = (&'static [u32], &'static str);

fn see(rt: &impl Abort, alloc: Global, cases: &[Case]) -> Result<(), Fail> {
    for (at, &(units, wanted)) in cases.iter().enumerate() {
        let over_links = told_of::<LinkPlaces>(alloc, units)?;
        assert_eq!(rt; over_links.as_str(), wanted, "case {at} over links");
        let over_spans = told_of::<SpanPlaces>(alloc, units)?;
        assert_eq!(rt; over_spans.as_str(), wanted, "case {at} over spans");
    }
    Ok(())
}

/// None; the tops; up a chain and down; siblings; numbers of no unit; one unit twice; all of them, in no order.
#[test]
fn parents_are_told_in_order(rt: HostRuntime) -> Result<(), Fail> {
    let cases: [Case; 9] = [
        (&[], ""),
        (&[7, 6, 1], "- - - "),
        (&[4, 3, 2, 7], "3 2 7 - "),
        (&[7, 2, 3, 4], "- 7 2 3 "),
        (&[8, 9, 10], "1 1 1 "),
        (&[2, 5], "7 7 "),
        (&[0, 11, 100_000_001], "- - - "),
        (&[9, 9, 1, 9], "1 1 - 1 "),
        (
            &[10, 99, 4, 6, 4, 2, 8, 1, 3, 0, 5, 9, 7, 10],
            "1 - 3 - 3 7 1 - 2 - 7 1 - 1 ",
        ),
    ];
    see(&rt, rt.alloc(), &cases)
}
