//! Whether the elements of the units can be a catalogue's, whatever their cells are.

ghost use Rattle.std.specs.Prelude.{◌≡◌};
ghost use Rattle.row_decoding.specs.Examinations.{Examines};
ghost use Rattle.integrity_checks.specs.ScanAnswers.{is_element_answer};
ghost use Rattle.integrity_checks.specs.CatalogueJudgments.{FollowsCatalogueRule, good_elements_in};

use crate::cells::is_nonblank_text;
use office_tables::{Gathering, StoreFault, Tables, Versioned, gather};
use row_decoding::{cell, number_in};
use sqlite::{Alter, Row};

/// Whether the cells of a row are those of an element of a unit: one of the 26 except the level, with a text that is
/// not blank.
fn is_element(row: &Row) -> bool
    ensures { result ≡ is_element_answer row.now }
{
    let Some(_) = number_in(cell(row, 0)) else {
        return false;
    };
    let Some(k) = number_in(cell(row, 1)) else {
        return false;
    };
    1 <= k && k <= 26 && k != 4 && is_nonblank_text(cell(row, 2))
}

/// The elements taken so far.
#[derive(Drop)]
struct Elements {
    are_good: bool,
}

impl Gathering for Elements {
    ghost use Rattle.std.specs.Prelude.{◌≡◌};
    ghost use Rattle.std.specs.List.{list_all};
    ghost use Rattle.integrity_checks.specs.ScanAnswers.{is_element_answer};

    ghost holds = { λ rows all. all.are_good ≡ list_all is_element_answer rows };

    fn take(&mut self, row: &Row) -> Result<(), StoreFault> {
        if !is_element(row) {
            self.are_good = false;
        }
        Ok(())
    }
}

/// Whether the elements can be read and can be a catalogue's. Assumes that each unit can be read. Reads the whole
/// table, row by row.
pub(crate) fn elements_are_good<P: Versioned, S: Alter>(
    tables: &mut Tables<P, S>,
) -> Result<bool, StoreFault>
    ensures { Examines S.Store tables.old tables.new result (FollowsCatalogueRule good_elements_in) }
{
    let all = gather(
        tables,
        "SELECT unit, k, value FROM element",
        Elements { are_good: true },
    )?;
    Ok(all.are_good)
}
