//! Whether the units can be a catalogue's, whatever their cells are.

ghost use Rattle.std.specs.Prelude.{◌≡◌, nat_lt};
ghost use Rattle.std.specs.List.{list_all};
ghost use Rattle.row_decoding.specs.Examinations.{Examines};
ghost use Rattle.integrity_checks.specs.ScanAnswers.{is_described_answer, described_in_answer};
ghost use Rattle.integrity_checks.specs.CatalogueJudgments.{JudgesUnits, are_good_unit_numbers};

use crate::ascending_numbers::Ascending;
use crate::cells::{is_day_or_null, is_flag, is_nonblank_text, is_short, is_source_text};
use isad_core::Number;
use isad_core::limits::{self, MOST_DEEP};
use office_tables::{Gathering, StoreFault, Tables, Versioned, gather};
use row_decoding::{cell, number_of};
use sqlite::{Alter, Row};
use std::alloc::Global;

/// The maximum number of units of an office.
const MOST_UNITS: usize = limits::MOST_UNITS as usize;

/// Whether the cells of a row, apart from its number, can be a unit's.
fn is_described(row: &Row) -> bool
    ensures { result ≡ is_described_answer row.now }
{
    is_flag(cell(row, 4))
        && is_day_or_null(cell(row, 5))
        && is_source_text(cell(row, 1))
        && is_nonblank_text(cell(row, 2))
        && is_short(cell(row, 2))
        && is_short(cell(row, 3))
}

/// The number of the unit in a row, if it is one from 0 on and the rest of the row can be a unit's; otherwise none.
fn described_in(row: &Row) -> Option<Number>
    ensures { result ≡ described_in_answer row.now }
{
    let number = number_of(row, 0)?;
    if is_described(row) {
        Some(number)
    } else {
        None
    }
}

/// The units taken so far.
#[derive(Drop)]
struct Units {
    numbers: Vec<Number>,
    /// Each row has a number, and the rest of it can be a unit's.
    are_good: bool,
}

impl Gathering for Units {
    ghost use Rattle.integrity_checks.specs.ScanAnswers.{described_in_answer};
    ghost use Rattle.row_decoding.specs.Readings.{AreGathered};

    ghost holds = { λ rows all. AreGathered (λ n. n) described_in_answer rows all.numbers.items all.are_good };

    fn take(&mut self, row: &Row) -> Result<(), StoreFault> {
        match described_in(row) {
            Some(number) => self.numbers.push(number)?,
            None => self.are_good = false,
        }
        Ok(())
    }
}

/// Whether all are below the next number.
fn are_below(numbers: &[Number], next: u64) -> bool
    ensures { result ≡ list_all (λ n. nat_lt n next) numbers.now }
{
    numbers.iter().all(|number| number.get() < next)
}

/// Whether these are the numbers of the units that have a place, each below the next number, and no more than
/// `MOST_UNITS`, and no unit lies deeper than `MOST_DEEP`.
fn are_good(units: &Ascending, places: &Ascending, height: u64, next: u64) -> bool
    ensures { result ≡ are_good_unit_numbers next places.now height units.now }
{
    are_below(units.as_slice(), next)
        && places.contains_all(units.as_slice())
        && units.contains_all(places.as_slice())
        && units.as_slice().len() <= MOST_UNITS
        && height <= MOST_DEEP
}

/// The same for numbers in any order.
fn are_placed(numbers: Vec<Number>, placed: Vec<Number>, height: u64, next: u64) -> bool
    ensures { result ≡ are_good_unit_numbers next placed.items height numbers.items }
{
    let units = Ascending::sorted(numbers);
    let places = Ascending::sorted(placed);
    are_good(&units, &places, height, next)
}

/// Whether the units can be read and can be a catalogue's. `placed` must be the numbers of the units that have a place,
/// in ascending order, and `height` the depth of the deepest, which is 0 without units. `next` is the number that the
/// next new unit gets. Reads the whole table, row by row. Holds the numbers while it runs.
pub(crate) fn units_are_good<P: Versioned, S: Alter>(
    alloc: Global,
    tables: &mut Tables<P, S>,
    placed: Vec<Number>,
    height: u64,
    next: u64,
) -> Result<bool, StoreFault>
    ensures { Examines S.Store tables.old tables.new result (JudgesUnits placed.items height next) }
{
    let all = gather(
        tables,
        "SELECT id, source, legacy, level, draft, until FROM unit",
        Units {
            numbers: Vec::new(alloc),
            are_good: true,
        },
    )?;
    let fit = are_placed(all.numbers, placed, height, next);
    Ok(all.are_good && fit)
}
