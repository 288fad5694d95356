//! Whether the containers can be a catalogue's, whatever their cells are.

ghost use Rattle.std.specs.Prelude.{◌≡◌};
ghost use Rattle.row_decoding.specs.Examinations.{Examines};
ghost use Rattle.integrity_checks.specs.ScanAnswers.{is_container_answer};
ghost use Rattle.integrity_checks.specs.CatalogueJudgments.{number_of_containers};

use crate::cells::{is_nonblank_text, is_text};
use isad_core::limits::MOST_CONTAINERS;
use office_tables::{Gathering, StoreFault, Tables, Versioned, gather};
use row_decoding::{cell, number_in};
use sqlite::{Alter, Row};

/// Whether the cells of a row are those of a container with this number and a name that is not blank.
fn is_container(row: &Row, number: u64) -> bool
    ensures { result ≡ is_container_answer number row.now }
{
    let Some(id) = number_in(cell(row, 0)) else {
        return false;
    };
    id == number && is_nonblank_text(cell(row, 1)) && is_text(cell(row, 2)) && is_text(cell(row, 3))
}

/// The containers taken so far, in the order of their numbers.
#[derive(Drop)]
struct Containers {
    count: u64,
    /// They are numbered from 1 on, and each has a name.
    are_good: bool,
}

impl Gathering for Containers {
    ghost use Rattle.std.specs.Prelude.{◌≡◌, length};
    ghost use Rattle.integrity_checks.specs.ScanAnswers.{are_container_answers};

    ghost holds = { λ rows all. (all.count ≡ length rows) × (all.are_good ≡ are_container_answers 1 rows) };

    fn take(&mut self, row: &Row) -> Result<(), StoreFault> {
        if self.count >= u64::MAX {
            return Err(StoreFault::Memory);
        }
        self.count += 1;
        if !is_container(row, self.count) {
            self.are_good = false;
        }
        Ok(())
    }
}

/// How many containers there are; none if a row cannot be read, or if they are not numbered from 1 on, each with a name
/// that is not blank, and no more than `MOST_CONTAINERS`. Reads the whole table, row by row.
pub(crate) fn count_if_numbered<P: Versioned, S: Alter>(
    tables: &mut Tables<P, S>,
) -> Result<Option<u64>, StoreFault>
    ensures { Examines S.Store tables.old tables.new result (λ db count. count ≡ number_of_containers db) }
{
    let all = gather(
        tables,
        "SELECT id, name, location, kind FROM container ORDER BY id",
        Containers {
            count: 0,
            are_good: true,
        },
    )?;
    let are_sound = all.are_good && all.count <= MOST_CONTAINERS;
    if are_sound {
        Ok(Some(all.count))
    } else {
        Ok(None)
    }
}
