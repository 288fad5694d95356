//! One query.

ghost use Rattle.std.specs.Prelude.{◌≡◌, ◌<◌, ◌^◌, pos, List, [], ◌∷◌, slice_get, IfOk, IfErr};
ghost use Rattle.sqlite.specs.Held.{state};
ghost use Rattle.sqlite.specs.State.{HasCleanDisk};
ghost use Rattle.sqlite.specs.Values.{bound};
ghost use Rattle.sqlite.specs.declared.types.Value.TheVariants.{Int};
ghost use Rattle.office_tables.specs.Query.{IsOurQuery, Reads, Finds, FindsFirst, Misses};

use crate::fault::StoreFault;
use crate::from_row::{FromRow, first_or_zero, read_all};
use sqlite::types::ValueRef;
use sqlite::{Alter, Connection};
use std::alloc::Global;

/// The records in the rows that one of our queries returns, in their order. While the disk is clean, a transaction over
/// our tables must be open. If the rows are those of legible records, it fails only if the query does, or for want of
/// memory. No row is changed, but a failure may have rolled the transaction back.
pub fn find<T: FromRow + Drop, S: Alter>(
    alloc: Global,
    conn: &mut Connection<S>,
    sql: &str,
    params: &[ValueRef<'_>],
) -> Result<Vec<T>, StoreFault>
    requires { IsOurQuery sql.now (state S.Store conn.old) }
    ensures reads { Reads (state S.Store conn.old) (state S.Store conn.new) result }
    ensures found { HasCleanDisk (state S.Store conn.new)
        → IfOk result (λ found. Finds T.cells sql.now (bound params.now) (state S.Store conn.old)
        (state S.Store conn.new) found.items) }
    ensures missed { HasCleanDisk (state S.Store conn.new)
        → IfErr result (Misses T.cells T.is_legible sql.now (bound params.now) (state S.Store conn.old)
        (state S.Store conn.new)) }
{
    let rows = conn.query_all(sql, params)?;
    read_all(alloc, &rows)
}

/// The record in the first row that one of our queries returns, or none if it returns no row. All rows are read. While
/// the disk is clean, a transaction over our tables must be open. If the rows are those of legible records, it fails
/// only if the query does, or for want of memory. No row is changed, but a failure may have rolled the transaction
/// back.
pub fn find_one<T: FromRow + Drop, S: Alter>(
    alloc: Global,
    conn: &mut Connection<S>,
    sql: &str,
    params: &[ValueRef<'_>],
) -> Result<Option<T>, StoreFault>
    requires { IsOurQuery sql.now (state S.Store conn.old) }
    ensures reads { Reads (state S.Store conn.old) (state S.Store conn.new) result }
    ensures found { HasCleanDisk (state S.Store conn.new)
        → IfOk result (λ first. (all : List T) × Finds T.cells sql.now (bound params.now) (state S.Store conn.old)
        (state S.Store conn.new) all × (first ≡ slice_get all 0)) }
    ensures missed { HasCleanDisk (state S.Store conn.new)
        → IfErr result (Misses T.cells T.is_legible sql.now (bound params.now) (state S.Store conn.old)
        (state S.Store conn.new)) }
{
    let found = find(alloc, conn, sql, params)?;
    Ok(found.into_iter().next())
}

/// The number in the first row that one of our queries returns, or 0 if it returns no row, if each row has one cell,
/// with a number from 0 on. While the disk is clean, a transaction over our tables must be open. If all these numbers
/// are below 2^32, it fails only if the query does, or for want of memory. No row is changed, but a failure may have
/// rolled the transaction back.
pub fn find_number<S: Alter>(
    conn: &mut Connection<S>,
    sql: &str,
    params: &[ValueRef<'_>],
) -> Result<u32, StoreFault>
    requires { IsOurQuery sql.now (state S.Store conn.old) }
    ensures reads { Reads (state S.Store conn.old) (state S.Store conn.new) result }
    ensures found { HasCleanDisk (state S.Store conn.new)
        → IfOk result (FindsFirst sql.now (bound params.now) (state S.Store conn.old) (state S.Store conn.new)) }
    ensures missed { HasCleanDisk (state S.Store conn.new)
        → IfErr result (Misses (λ n. Int (pos n) ∷ []) (λ n. n < 2 ^ 32) sql.now (bound params.now)
        (state S.Store conn.old) (state S.Store conn.new)) }
{
    let rows = conn.query_all(sql, params)?;
    first_or_zero(&rows)
}
