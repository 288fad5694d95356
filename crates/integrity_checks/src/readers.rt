//! Whether the rows of the readers can be a desk's, whatever their cells are.

ghost use Rattle.std.specs.Prelude.{◌≡◌, ◌&&◌, false};
ghost use Rattle.std.specs.Option.{option_map_or};
ghost use Rattle.sqlite.specs.Value.{owned};
ghost use Rattle.isad_core.specs.Days.{is_day_number};
ghost use Rattle.desk_core.specs.Names.{is_name as is_name_of};
ghost use Rattle.office_tables.specs.Cells.{whole_in, text_in};
ghost use Rattle.row_decoding.specs.Examinations.{Examines};
ghost use Rattle.integrity_checks.specs.ReaderRows.{is_reader_answer, number_registered};

use desk_core::is_name;
use isad_core::limits::MOST_TICKETS;
use office_tables::{Gathering, StoreFault, Tables, Versioned, gather};
use row_decoding::{cell, number_in};
use sqlite::types::ValueRef;
use sqlite::{Alter, Row};

/// Whether the cell is the number of a day of the calendar.
fn is_day(value: ValueRef<'_>) -> bool
    ensures { result ≡ option_map_or is_day_number (whole_in (owned value.entry)) false }
{
    match value {
        ValueRef::Int(n) => isad_core::is_day(n),
        _ => false,
    }
}

/// Whether the cell is a text in UTF-8 and a name that a reader may have.
fn is_name_text(value: ValueRef<'_>) -> bool
    ensures { result ≡ option_map_or is_name_of (text_in (owned value.entry)) false }
{
    match value {
        ValueRef::Text(bytes) => match std::str::from_utf8(bytes) {
            Ok(text) => is_name(text),
            Err(_) => false,
        },
        _ => false,
    }
}

/// Whether the cells of a row are those of a reader with this ticket, a name that a reader may have, and a last day of
/// the calendar.
fn is_reader(row: &Row, ticket: u64) -> bool
    ensures { result ≡ is_reader_answer ticket row.now }
{
    let Some(number) = number_in(cell(row, 0)) else {
        return false;
    };
    number == ticket && is_day(cell(row, 1)) && is_name_text(cell(row, 2))
}

/// The readers taken so far, in the order of their tickets.
#[derive(Drop)]
struct Readers {
    count: u64,
    /// Their tickets are numbered from 1 on, and each has a name and a last day.
    are_good: bool,
}

impl Gathering for Readers {
    ghost use Rattle.std.specs.Prelude.{◌≡◌, length};
    ghost use Rattle.integrity_checks.specs.ReaderRows.{are_reader_answers};

    ghost holds = { λ rows all. (all.count ≡ length rows) × (all.are_good ≡ are_reader_answers 1 rows) };

    fn take(&mut self, row: &Row) -> Result<(), StoreFault> {
        if self.count >= u64::MAX {
            return Err(StoreFault::Memory);
        }
        self.count += 1;
        if !is_reader(row, self.count) {
            self.are_good = false;
        }
        Ok(())
    }
}

/// How many readers there are; none if a row cannot be read, or if their tickets are not numbered from 1 on, each with
/// a name that a reader may have and a last day of the calendar, and no more than `MOST_TICKETS`. Reads the whole
/// table, row by row.
pub(crate) fn count_if_registered<P: Versioned, S: Alter>(
    tables: &mut Tables<P, S>,
) -> Result<Option<u64>, StoreFault>
    ensures { Examines S.Store tables.old tables.new result (λ db count. count ≡ number_registered db) }
{
    let all = gather(
        tables,
        "SELECT ticket, until, name FROM reader ORDER BY ticket",
        Readers {
            count: 0,
            are_good: true,
        },
    )?;
    let are_sound = all.are_good && all.count <= MOST_TICKETS;
    if are_sound {
        Ok(Some(all.count))
    } else {
        Ok(None)
    }
}
