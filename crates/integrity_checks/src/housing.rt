//! Whether what is in the containers can be a catalogue's, whatever the cells are.

ghost use Rattle.std.specs.Prelude.{◌≡◌, nat_le, option_map};
ghost use Rattle.row_decoding.specs.Examinations.{Examines};
ghost use Rattle.integrity_checks.specs.ScanAnswers.{housing_in_answer};
ghost use Rattle.integrity_checks.specs.HousingPlaces.{higher as higher_of, row_of_housed};
ghost use Rattle.integrity_checks.specs.CatalogueJudgments.{JudgesHousings};

use office_tables::{Gathering, StoreFault, Tables, Versioned, gather};
use row_decoding::{cell, number_in};
use sqlite::{Alter, Row};

/// A container of a unit, at its place in the unit's order.
#[derive(Drop)]
struct Housed {
    unit: u64,
    ord: u64,
    container: u64,
}

/// The contents of a row, if it can be read and its place and its container have numbers from 1 on; otherwise none.
fn housed_in(row: &Row) -> Option<Housed>
    ensures { option_map row_of_housed result ≡ housing_in_answer row.now }
{
    let unit = number_in(cell(row, 0))?;
    let ord = number_in(cell(row, 1))?;
    let container = number_in(cell(row, 2))?;
    if ord < 1 || container < 1 {
        return None;
    }
    Some(Housed {
        unit,
        ord,
        container,
    })
}

/// The higher of two numbers.
fn higher(a: u64, b: u64) -> u64
    ensures { result ≡ higher_of a b }
{
    if a <= b { b } else { a }
}

/// The rows taken so far, with those of each unit together.
#[derive(Drop)]
struct Housings {
    /// Each row has contents, and no place of a unit before the last is above the number of that unit's rows.
    are_good: bool,
    /// The unit of the last row, how many rows it has, and the highest place among them.
    unit: u64,
    count: u64,
    highest: u64,
    /// The highest container of all.
    last: u64,
}

impl Housings {
    /// Whether no place of the last unit is above the number of its rows.
    fn is_filled(&self) -> bool
        ensures { result ≡ nat_le self.now.highest self.now.count }
    {
        self.highest <= self.count
    }
}

impl Gathering for Housings {
    ghost use Rattle.integrity_checks.specs.HousingPlaces.{AreSummedUp};

    ghost holds = { λ rows all. AreSummedUp rows all.are_good all.unit all.count all.highest all.last };

    fn take(&mut self, row: &Row) -> Result<(), StoreFault> {
        if self.count >= u64::MAX {
            return Err(StoreFault::Memory);
        }
        let Some(housed) = housed_in(row) else {
            self.are_good = false;
            return Ok(());
        };
        self.last = higher(self.last, housed.container);
        if housed.unit == self.unit {
            self.count += 1;
            self.highest = higher(self.highest, housed.ord);
            return Ok(());
        }
        if !self.is_filled() {
            self.are_good = false;
        }
        self.unit = housed.unit;
        self.count = 1;
        self.highest = housed.ord;
        Ok(())
    }
}

/// Whether the rows of the units in the containers can be read and can be a catalogue's. `containers` must be how many
/// containers there are. Assumes that each unit can be read. Reads the whole table, row by row.
pub(crate) fn housings_are_good<P: Versioned, S: Alter>(
    tables: &mut Tables<P, S>,
    containers: u64,
) -> Result<bool, StoreFault>
    ensures { Examines S.Store tables.old tables.new result (JudgesHousings containers) }
{
    let all = gather(
        tables,
        "SELECT unit, ord, container FROM housing ORDER BY unit, ord",
        Housings {
            are_good: true,
            unit: 0,
            count: 0,
            highest: 0,
            last: 0,
        },
    )?;
    Ok(all.are_good && all.is_filled() && all.last <= containers)
}
