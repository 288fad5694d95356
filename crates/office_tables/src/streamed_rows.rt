//! The rows of a query, taken one by one, so that they are not all in memory at once.

ghost use Rattle.std.specs.Prelude.{[], IfOk, IfErr};
ghost use Rattle.sqlite.specs.Held.{state};
ghost use Rattle.sqlite.specs.Given.{IsPlain};
ghost use Rattle.sqlite.specs.Listing.{understood};
ghost use Rattle.sqlite.specs.State.{HasCleanDisk, Survives};
ghost use Rattle.office_tables.specs.Query.{IsOurQuery, Reads, Gathers, StopsShort};

use crate::fault::StoreFault;
use sqlite::{Alter, Connection, Row};

/// What is gathered from rows, one after another.
pub trait Gathering {
    ghost use Rattle.std.specs.Prelude.{◌≡◌, List, [], ◌∷◌, ◌++◌, OnOk, IfErr};
    ghost use Rattle.sqlite.specs.Order.{Row};

    /// It is what these rows come to, in this order.
    ghost holds: { List Row → Self → Type 0 };

    /// Takes one more row, after those that were taken before. Fails only with `StoreFault::Memory`; what was gathered
    /// is then unknown.
    fn take(&mut self, row: &Row) -> Result<(), StoreFault>
        ensures takes { (rows : List Row) → holds rows self.old
            → OnOk result (holds (rows ++ row.now ∷ []) self.new) }
        ensures faults { IfErr result (λ e. e ≡ StoreFault.Memory) };
}

/// Takes all rows of a query, which has no parameters.
fn take_rows<G: Gathering + Drop, S: Alter>(
    conn: &mut Connection<S>,
    sql: &str,
    mut gathered: G,
) -> Result<G, StoreFault>
    requires plain { HasCleanDisk (state S.Store conn.old) → IsPlain (understood conn.old.schema sql.now) }
    requires begins { G.holds [] gathered }
    ensures gathers { HasCleanDisk (state S.Store conn.new)
        → IfOk result (Gathers G.holds sql.now [] (state S.Store conn.old) (state S.Store conn.new)) }
    ensures stops { HasCleanDisk (state S.Store conn.new)
        → IfErr result (StopsShort sql.now [] (state S.Store conn.old) (state S.Store conn.new)) }
    ensures crash { Survives (state S.Store conn.old) (state S.Store conn.new) (λ _. ⊥) }
{
    let mut rows = conn.query(sql, &[])?;
    'rows: for _ in 0..usize::MAX {
        let Some(row) = rows.next()? else {
            return Ok(gathered);
        };
        gathered.take(row)?;
    }
    Err(StoreFault::Memory)
}

/// Runs one of our queries, which has no parameters, and returns what its rows come to. `start` must be what no rows
/// come to. While the disk is clean, a transaction over our tables must be open. No row is changed, but a failure may
/// have rolled the transaction back.
pub(crate) fn gather<G: Gathering + Drop, S: Alter>(
    conn: &mut Connection<S>,
    sql: &str,
    start: G,
) -> Result<G, StoreFault>
    requires ours { IsOurQuery sql.now (state S.Store conn.old) }
    requires begins { G.holds [] start }
    ensures reads { Reads (state S.Store conn.old) (state S.Store conn.new) result }
    ensures gathers { HasCleanDisk (state S.Store conn.new)
        → IfOk result (Gathers G.holds sql.now [] (state S.Store conn.old) (state S.Store conn.new)) }
    ensures stops { HasCleanDisk (state S.Store conn.new)
        → IfErr result (StopsShort sql.now [] (state S.Store conn.old) (state S.Store conn.new)) }
{
    take_rows(conn, sql, start)
}
