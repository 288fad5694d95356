//! One statement on the tables of an office.

ghost use Rattle.std.specs.Prelude.{◌≡◌, ◌<◌, ◌^◌, pos, List, [], ◌∷◌, slice_get};
ghost use Rattle.sqlite.specs.Held.{state};
ghost use Rattle.sqlite.specs.State.{HasCleanDisk, IsLive};
ghost use Rattle.sqlite.specs.Values.{bound};
ghost use Rattle.sqlite.specs.declared.types.Value.TheVariants.{Int};
ghost use Rattle.office_tables.specs.ChangeStatement.{IsChange, Leaves, RanInside};
ghost use Rattle.office_tables.specs.Query.{IsQuery, Reads, Finds, FindsFirst, FoundInside, Gathers, Misses};
ghost use Rattle.office_tables.specs.Query.{StopsShort};

use crate::fault::StoreFault;
use crate::from_row::FromRow;
use crate::streamed_rows::Gathering;
use crate::tables::Tables;
use crate::versions::Versioned;
use crate::{change_statement, query, streamed_rows};
use sqlite::Alter;
use sqlite::types::ValueRef;
use std::alloc::Global;

/// Runs one of our statements that change rows (INSERT, UPDATE or DELETE). If it fails, every row is as it was, or the
/// transaction was rolled back. Outside a transaction it fails with `StoreFault::Schema`.
pub fn change<P: Versioned, S: Alter>(
    tables: &mut Tables<P, S>,
    sql: &str,
    params: &[ValueRef<'_>],
) -> Result<(), StoreFault>
    requires { IsChange P.version sql.now }
    ensures leaves { Leaves (state S.Store tables.old) (state S.Store tables.new) result }
    ensures ran { HasCleanDisk (state S.Store tables.new) → RanInside P.version sql.now (bound params.now)
        (state S.Store tables.old) (state S.Store tables.new) result }
    ensures live { IsLive (state S.Store tables.old) }
{
    // An open connection's rows keep the rules of its tables.
    let _ = tables.conn.schema();
    if tables.conn.is_autocommit() {
        return Err(StoreFault::Schema);
    }
    change_statement::change(&mut tables.conn, sql, params)
}

/// The records in the rows that one of our queries returns, in their order. If the rows are those of legible records,
/// it fails only if the query does, or for want of memory. Outside a transaction it fails with `StoreFault::Schema`.
pub fn find<T: FromRow + Drop, P: Versioned, S: Alter>(
    alloc: Global,
    tables: &mut Tables<P, S>,
    sql: &str,
    params: &[ValueRef<'_>],
) -> Result<Vec<T>, StoreFault>
    requires { IsQuery P.version sql.now }
    ensures reads { Reads (state S.Store tables.old) (state S.Store tables.new) result }
    ensures ran { HasCleanDisk (state S.Store tables.new) → FoundInside P.version (state S.Store tables.old)
        (λ found. Finds T.cells sql.now (bound params.now) (state S.Store tables.old)
        (state S.Store tables.new) found.items)
        (Misses T.cells T.is_legible sql.now (bound params.now) (state S.Store tables.old)
        (state S.Store tables.new)) result }
{
    if tables.conn.is_autocommit() {
        return Err(StoreFault::Schema);
    }
    query::find(alloc, &mut tables.conn, sql, params)
}

/// The record in the first row that one of our queries returns, or none if it returns no row. All rows are read: if
/// they are those of legible records, it fails only if the query does, or for want of memory. Outside a transaction it
/// fails with `StoreFault::Schema`.
pub fn find_one<T: FromRow + Drop, P: Versioned, S: Alter>(
    alloc: Global,
    tables: &mut Tables<P, S>,
    sql: &str,
    params: &[ValueRef<'_>],
) -> Result<Option<T>, StoreFault>
    requires { IsQuery P.version sql.now }
    ensures reads { Reads (state S.Store tables.old) (state S.Store tables.new) result }
    ensures ran { HasCleanDisk (state S.Store tables.new) → FoundInside P.version (state S.Store tables.old)
        (λ first. (all : List T) × Finds T.cells sql.now (bound params.now) (state S.Store tables.old)
        (state S.Store tables.new) all × (first ≡ slice_get all 0))
        (Misses T.cells T.is_legible sql.now (bound params.now) (state S.Store tables.old)
        (state S.Store tables.new)) result }
{
    if tables.conn.is_autocommit() {
        return Err(StoreFault::Schema);
    }
    query::find_one(alloc, &mut tables.conn, sql, params)
}

/// The number in the first row that one of our queries returns, or 0 if it returns no row. Each row must have one cell,
/// with a number from 0 on. If all these numbers are below 2^32, it fails only if the query does, or for want of
/// memory. Outside a transaction it fails with `StoreFault::Schema`.
pub fn find_number<P: Versioned, S: Alter>(
    tables: &mut Tables<P, S>,
    sql: &str,
    params: &[ValueRef<'_>],
) -> Result<u32, StoreFault>
    requires { IsQuery P.version sql.now }
    ensures reads { Reads (state S.Store tables.old) (state S.Store tables.new) result }
    ensures ran { HasCleanDisk (state S.Store tables.new) → FoundInside P.version (state S.Store tables.old)
        (FindsFirst sql.now (bound params.now) (state S.Store tables.old) (state S.Store tables.new))
        (Misses (λ n. Int (pos n) ∷ []) (λ n. n < 2 ^ 32) sql.now (bound params.now) (state S.Store tables.old)
        (state S.Store tables.new)) result }
{
    if tables.conn.is_autocommit() {
        return Err(StoreFault::Schema);
    }
    query::find_number(&mut tables.conn, sql, params)
}

/// What the rows of one of our queries come to, taken one by one. The query has no parameters, and `start` must be what
/// no rows come to. It fails only if the query does, or for want of memory. Outside a transaction it fails with
/// `StoreFault::Schema`.
pub fn gather<G: Gathering + Drop, P: Versioned, S: Alter>(
    tables: &mut Tables<P, S>,
    sql: &str,
    start: G,
) -> Result<G, StoreFault>
    requires ours { IsQuery P.version sql.now }
    requires begins { G.holds [] start }
    ensures reads { Reads (state S.Store tables.old) (state S.Store tables.new) result }
    ensures ran { HasCleanDisk (state S.Store tables.new) → FoundInside P.version (state S.Store tables.old)
        (Gathers G.holds sql.now [] (state S.Store tables.old) (state S.Store tables.new))
        (StopsShort sql.now [] (state S.Store tables.old) (state S.Store tables.new)) result }
    ensures live { IsLive (state S.Store tables.old) }
{
    // An open connection's rows keep the rules of its tables.
    let _ = tables.conn.schema();
    if tables.conn.is_autocommit() {
        return Err(StoreFault::Schema);
    }
    streamed_rows::gather(&mut tables.conn, sql, start)
}
