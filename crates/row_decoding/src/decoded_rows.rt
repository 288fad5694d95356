//! Rows of doubtful origin, as far as they can be read.

ghost use Rattle.std.specs.Prelude.{◌≡◌, true, []};
ghost use Rattle.sqlite.specs.Held.{state};
ghost use Rattle.sqlite.specs.State.{HasCleanDisk};
ghost use Rattle.office_tables.specs.Query.{IsQuery, Reads, FoundInside, Gathers, StopsShort};
ghost use Rattle.row_decoding.specs.Readings.{AreGathered};

use office_tables::{Gathering, StoreFault, Tables, Versioned, gather};
use sqlite::{Alter, Row};
use std::alloc::Global;

/// A record that can be read from rows with any cells.
pub trait FromCells {
    ghost use Rattle.std.specs.Prelude.{◌≡◌, Option, option_map};
    ghost use Rattle.sqlite.specs.Order.{Row};

    /// The type of the record in the definitions.
    ghost Told: { Type 0 };

    /// The record as the definitions have it.
    ghost told: { Self → Told };

    /// The record in the cells of a row of the query, or none if they contain no such record.
    ghost says: { Row → Option Told };

    /// Reads a row of the query. Returns none if its cells contain no such record.
    fn read(row: &Row) -> Option<Self>
    where
        Self: Sized,
        ensures { option_map told result ≡ says row.now };
}

/// The rows of a query that can be read, in the order of the query.
#[derive(Drop)]
pub struct Gathered<R> {
    pub rows: Vec<R>,
    /// True if every row could be read.
    pub are_read: bool,
}

impl<R: FromCells + Drop> Gathering for Gathered<R> {
    ghost use Rattle.row_decoding.specs.Readings.{AreGathered};

    ghost holds = { λ rows all. AreGathered R.told R.says rows all.rows.items all.are_read };

    fn take(&mut self, row: &Row) -> Result<(), StoreFault> {
        match R::read(row) {
            Some(read) => self.rows.push(read)?,
            None => self.are_read = false,
        }
        Ok(())
    }
}

/// No rows yet.
fn no_rows<R>(alloc: Global) -> Gathered<R>
    ensures nothing { result.rows.items ≡ [] }
    ensures read { result.are_read ≡ true }
{
    Gathered {
        rows: Vec::new(alloc),
        are_read: true,
    }
}

/// Reads the rows of a query that can be read, in its order, and whether all can be. The query must be one with a known
/// meaning and without parameters. A row that cannot be read is no fault. Outside a transaction it fails with
/// `StoreFault::Schema`.
pub fn read_rows<R: FromCells + Drop, P: Versioned, S: Alter>(
    alloc: Global,
    tables: &mut Tables<P, S>,
    sql: &str,
) -> Result<Gathered<R>, StoreFault>
    requires ours { IsQuery P.version sql.now }
    ensures reads { Reads (state S.Store tables.old) (state S.Store tables.new) result }
    ensures ran { HasCleanDisk (state S.Store tables.new) → FoundInside P.version (state S.Store tables.old)
        (Gathers (λ rows all. AreGathered R.told R.says rows all.rows.items all.are_read) sql.now []
        (state S.Store tables.old) (state S.Store tables.new))
        (StopsShort sql.now [] (state S.Store tables.old) (state S.Store tables.new)) result }
{
    gather(tables, sql, no_rows(alloc))
}
