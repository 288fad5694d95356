//! A forest that changes, in either version, and the answers about its places afterwards.

use crate::offices::{check_result, new_office};
use crate::parents::{FOREST, Place, put_all};
use catalogue_store::{LinkPlaces, Places, StoreFault};
use integrity_checks::CheckedPlaces;
use isad_core::Number;
use nested_sets::SpanPlaces;
use office_tables::Tables;
use sqlite::{Alter, Connection};
use std::alloc::{AllocError, Global};
use std::process::Abort;
use std::test::Fail;

/// A change of the forest.
#[derive(Clone, Copy)]
enum Change {
    /// Moves the unit to the last place below the other, or to the last place of the tops.
    Move(u32, Option<u32>),
    /// Removes the unit with all below it.
    Cut(u32),
}

/// What is asked about the places.
#[derive(Clone, Copy)]
enum Question {
    All,
    Path(u32),
    Branch(u32),
    /// Whether the first is the second, or lies below it.
    IsBelow(u32, u32),
    /// Which units have a place, in the order of their numbers, and the depth of the deepest; a dash for defective
    /// places.
    Judged,
}

/// Carries a change out.
fn carry_out<P: Places, S: Alter>(
    alloc: Global,
    tables: &mut Tables<P, S>,
    change: Change,
) -> Result<(), StoreFault> {
    match change {
        Change::Move(unit, None) => P::shift(alloc, tables, Number::from(unit), None),
        Change::Move(unit, Some(above)) => {
            P::shift(alloc, tables, Number::from(unit), Some(Number::from(above)))
        }
        Change::Cut(unit) => P::cut(alloc, tables, Number::from(unit)),
    }
}

/// One change after another.
fn change_all<P: Places, S: Alter>(
    alloc: Global,
    tables: &mut Tables<P, S>,
    changes: &[Change],
) -> Result<(), StoreFault> {
    for it in changes {
        carry_out(alloc, tables, *it)?;
    }
    Ok(())
}

/// The units by their numbers, with a blank after each.
fn listing(alloc: Global, units: &[Number]) -> Result<String, AllocError> {
    let mut text = String::new(alloc);
    for unit in units {
        write!(text, "{} ", unit.get())?;
    }
    Ok(text)
}

/// The answer of the places to a question, or of the check of the places.
fn answer<P: CheckedPlaces, S: Alter>(
    alloc: Global,
    tables: &mut Tables<P, S>,
    question: Question,
) -> Result<String, Fail> {
    let units = match question {
        Question::All => P::all(alloc, tables)?,
        Question::Path(unit) => P::path(alloc, tables, Number::from(unit))?,
        Question::Branch(unit) => P::branch(alloc, tables, Number::from(unit))?,
        Question::IsBelow(unit, other) => {
            let is_below = P::is_below(alloc, tables, Number::from(unit), Number::from(other))?;
            return Ok(format!(in alloc; "{is_below}")?);
        }
        Question::Judged => return check_result(alloc, tables),
    };
    Ok(listing(alloc, &units)?)
}

/// The same, with a forest and after these changes.
fn answer_after<P: CheckedPlaces, S: Alter>(
    alloc: Global,
    tables: &mut Tables<P, S>,
    forest: &[Place],
    changes: &[Change],
    question: Question,
) -> Result<String, Fail> {
    put_all(alloc, tables, forest)?;
    change_all(alloc, tables, changes)?;
    answer(alloc, tables, question)
}

/// The answer in a new office with a forest, after these changes.
fn told_of<P: CheckedPlaces>(
    alloc: Global,
    forest: &[Place],
    changes: &[Change],
    question: Question,
) -> Result<String, Fail> {
    let mut tables = new_office::<P, _>(alloc, Connection::open_in_memory(alloc)?)?;
    let text = answer_after(alloc, &mut tables, forest, changes, question);
    let _ = tables.into_connection();
    text
}

/// Changes, a question, and its answer in either version.
type Case = (&'static [Change], Question, &'static str);

fn see(rt: &impl Abort, alloc: Global, forest: &[Place], cases: &[Case]) -> Result<(), Fail> {
    for (at, &(changes, question, wanted)) in cases.iter().enumerate() {
        let over_links = told_of::<LinkPlaces>(alloc, forest, changes, question)?;
        assert_eq!(rt; over_links.as_str(), wanted, "case {at} over links");
        let over_spans = told_of::<SpanPlaces>(alloc, forest, changes, question)?;
        assert_eq!(rt; over_spans.as_str(), wanted, "case {at} over spans");
    }
    Ok(())
}

/// The forest has the tops 7, 6 and 1; below 7 are 2, which has 3 below it and 4 below that, and 5; below 1 are 10, 9
/// and 8.
#[test]
fn a_forest_is_told(rt: HostRuntime) -> Result<(), Fail> {
    let cases: [Case; 13] = [
        (&[], Question::All, "7 2 3 4 5 6 1 10 9 8 "),
        (&[], Question::Path(4), "7 2 3 4 "),
        (&[], Question::Path(6), "6 "),
        (&[], Question::Path(99), ""),
        (&[], Question::Branch(2), "2 3 4 "),
        (&[], Question::Branch(99), ""),
        (&[], Question::Branch(1), "1 10 9 8 "),
        (&[], Question::Branch(4), "4 "),
        (&[], Question::IsBelow(4, 7), "true"),
        (&[], Question::IsBelow(7, 4), "false"),
        (&[], Question::IsBelow(5, 5), "true"),
        (&[], Question::IsBelow(8, 7), "false"),
        (&[], Question::IsBelow(99, 99), "false"),
    ];
    see(&rt, rt.alloc(), &FOREST, &cases)
}

/// A branch comes last below its new parent, or last of the tops, and keeps its own order. One that is moved back does
/// not return to its old place. What is cut leaves no gap.
#[test]
fn branches_move_and_go(rt: HostRuntime) -> Result<(), Fail> {
    use Change::{Cut, Move};
    let cases: [Case; 14] = [
        (&[Move(2, Some(1))], Question::All, "7 5 6 1 10 9 8 2 3 4 "),
        (&[Move(2, None)], Question::All, "7 5 6 1 10 9 8 2 3 4 "),
        (&[Move(10, Some(1))], Question::Branch(1), "1 9 8 10 "),
        (&[Move(1, Some(4))], Question::Path(8), "7 2 3 4 1 8 "),
        (&[Move(7, Some(6))], Question::All, "6 7 2 3 4 5 1 10 9 8 "),
        (
            &[Move(2, None), Move(2, Some(7))],
            Question::All,
            "7 5 2 3 4 6 1 10 9 8 ",
        ),
        (&[Cut(3)], Question::All, "7 2 5 6 1 10 9 8 "),
        (&[Cut(7)], Question::Branch(7), ""),
        (&[Cut(7)], Question::Judged, "1 6 8 9 10 to 2;"),
        (&[Cut(7), Cut(6), Cut(1)], Question::All, ""),
        (&[Move(9, Some(3)), Cut(2)], Question::All, "7 5 6 1 10 8 "),
        (&[Cut(1), Move(4, None)], Question::All, "7 2 3 5 6 4 "),
        (
            &[Move(1, Some(4))],
            Question::Judged,
            "1 2 3 4 5 6 7 8 9 10 to 6;",
        ),
        (
            &[Move(6, Some(8)), Cut(5), Move(3, Some(6))],
            Question::Judged,
            "1 2 3 4 6 7 8 9 10 to 5;",
        ),
    ];
    see(&rt, rt.alloc(), &FOREST, &cases)
}

/// Six tops, with the other units below the first.
fn wide_forest(alloc: Global) -> Result<Vec<Place>, AllocError> {
    let mut forest = Vec::new(alloc);
    for unit in 1..31 {
        forest.push((unit, if unit > 6 { Some(1) } else { None }))?;
    }
    Ok(forest)
}

/// The units by their numbers; none lies below the second level.
const WHOLE: &str =
    "1 2 3 4 5 6 7 8 9 10 11 12 13 14 15 16 17 18 19 20 21 22 23 24 25 26 27 28 29 30 to 2;";

/// Nested sets find the rows of few numbers in another way than those of many. Few numbers go down and up, past the
/// next sibling and into it; many go down and up, with a branch of one unit and with the branch of most units.
#[test]
fn few_and_many_numbers_change(rt: HostRuntime) -> Result<(), Fail> {
    use Change::{Cut, Move};
    let cases: [Case; 12] = [
        (
            &[Move(5, None)],
            Question::All,
            "1 7 8 9 10 11 12 13 14 15 16 17 18 19 20 21 22 23 24 25 26 27 28 29 30 2 3 4 6 5 ",
        ),
        (
            &[Move(2, Some(1)), Move(29, Some(1))],
            Question::Branch(1),
            "1 7 8 9 10 11 12 13 14 15 16 17 18 19 20 21 22 23 24 25 26 27 28 30 2 29 ",
        ),
        (
            &[Move(1, None)],
            Question::All,
            "2 3 4 5 6 1 7 8 9 10 11 12 13 14 15 16 17 18 19 20 21 22 23 24 25 26 27 28 29 30 ",
        ),
        (
            &[Move(30, Some(6))],
            Question::All,
            "1 7 8 9 10 11 12 13 14 15 16 17 18 19 20 21 22 23 24 25 26 27 28 29 2 3 4 5 6 30 ",
        ),
        (
            &[Move(6, Some(1))],
            Question::All,
            "1 7 8 9 10 11 12 13 14 15 16 17 18 19 20 21 22 23 24 25 26 27 28 29 30 6 2 3 4 5 ",
        ),
        (
            &[Move(5, None), Move(2, Some(1)), Move(29, Some(1))],
            Question::Judged,
            WHOLE,
        ),
        (
            &[Move(1, None), Move(30, Some(6)), Move(6, None)],
            Question::Judged,
            WHOLE,
        ),
        (
            &[Move(30, Some(6)), Move(1, None), Move(2, Some(1))],
            Question::Judged,
            WHOLE,
        ),
        (
            &[Cut(5), Cut(6)],
            Question::All,
            "1 7 8 9 10 11 12 13 14 15 16 17 18 19 20 21 22 23 24 25 26 27 28 29 30 2 3 4 ",
        ),
        (
            &[Cut(5)],
            Question::Judged,
            "1 2 3 4 6 7 8 9 10 11 12 13 14 15 16 17 18 19 20 21 22 23 24 25 26 27 28 29 30 to 2;",
        ),
        (
            &[Cut(7)],
            Question::Judged,
            "1 2 3 4 5 6 8 9 10 11 12 13 14 15 16 17 18 19 20 21 22 23 24 25 26 27 28 29 30 to 2;",
        ),
        (
            &[Move(6, Some(2)), Cut(1)],
            Question::Judged,
            "2 3 4 5 6 to 2;",
        ),
    ];
    let forest = wide_forest(rt.alloc())?;
    see(&rt, rt.alloc(), &forest, &cases)
}
