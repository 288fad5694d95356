//! Orders.
ghost use Rattle.std.specs.Prelude.{◌≡◌, ◌&&◌, IfOk, map, filter, length, nat_le, not};
ghost use Rattle.std.specs.List.{list_all};
ghost use Rattle.isad_core.specs.Limits.{most_orders};
ghost use Rattle.isad_core.specs.Words.{are_numbered_from};
ghost use Rattle.desk_core.specs.DeskCauses.{Around as Held, are_good_orders};
ghost use Rattle.desk_core.specs.DeskRows.{Desk};
ghost use Rattle.desk_core.specs.RowRecords.{Surrounds, order_record};
ghost use Rattle.desk_core.specs.Consistency.{is_fit_order as is_fit_order_of, placing, placing_cmp};
ghost use Rattle.desk_core.specs.Consistency.{asking, asking_cmp};
ghost use Rattle.desk_core.specs.KeyCounts.{key_occurs_more_than};
ghost use Rattle.desk_core.specs.Consistency.{waits_or_is_out as waits_or_is_out_of};

use crate::consistency::context::{Around, is_given};
use crate::consistency::key_counts::occurs_more_than;
use crate::consistency::numbers::are_numbered;
use crate::consistency::rows::OrderRow;
use isad_core::{is_day, limits};
use std::alloc::{AllocError, Global};

/// The most orders that may ever be placed.
const MOST_ORDERS: usize = limits::MOST_ORDERS as usize;

/// Whether the orders are those of a desk: they are numbered from 1 in their order and at most 10000000, each is valid
/// by itself, no ticket placed more on a day than it may, and no ticket has two orders for one container that wait or
/// are out. Takes about n log n steps, whatever the order of tickets and days.
pub fn are_good_orders(
    alloc: Global,
    around: &Around,
    orders: &[OrderRow],
) -> Result<bool, AllocError>
    ensures { IfOk result (λ good. (a : Held) (d : Desk) → Surrounds around.now a d
        → d.orders ≡ map order_record orders.now → good ≡ are_good_orders a d) }
{
    let numbers = numbers_of(alloc, orders)?;
    if !are_plain(around, &numbers, orders) {
        return Ok(false);
    }
    let keeps = keep_the_limit(alloc, around.daily, orders)?;
    if !keeps {
        return Ok(false);
    }
    let once = ask_once(alloc, orders)?;
    Ok(once)
}

/// Whether these numbers count from 1, the orders are not too many, and each order is valid by itself.
fn are_plain(around: &Around, numbers: &[u64], orders: &[OrderRow]) -> bool
    ensures { result ≡ (are_numbered_from (λ n. n) 1 numbers.now
        && (nat_le (length orders.now) most_orders && list_all (is_fit_order_of around.now) orders.now)) }
{
    are_numbered(numbers) && orders.len() <= MOST_ORDERS && are_fit(around, orders)
}

/// Whether no ticket placed more orders on a day than it may.
fn keep_the_limit(alloc: Global, daily: u64, orders: &[OrderRow]) -> Result<bool, AllocError>
    ensures { IfOk result (λ good. good
        ≡ not (key_occurs_more_than placing_cmp daily (map placing orders.now))) }
{
    let placings = placings_of(alloc, orders)?;
    Ok(!occurs_more_than(placings, daily))
}

/// Whether no ticket asks twice for a container, by orders that wait or are out.
fn ask_once(alloc: Global, orders: &[OrderRow]) -> Result<bool, AllocError>
    ensures { IfOk result (λ good. good
        ≡ not (key_occurs_more_than asking_cmp 1 (map asking (filter waits_or_is_out_of orders.now)))) }
{
    let askings = askings_of(alloc, orders)?;
    Ok(!occurs_more_than(askings, 1))
}

fn numbers_of(alloc: Global, orders: &[OrderRow]) -> Result<Vec<u64>, AllocError>
    ensures { IfOk result (λ numbers. numbers.items ≡ map (λ row. row.id) orders.now) }
{
    orders.iter().map(|row| row.id).collect(alloc)
}

/// Whether each order is valid by itself.
fn are_fit(around: &Around, orders: &[OrderRow]) -> bool
    ensures { result ≡ list_all (is_fit_order_of around.now) orders.now }
{
    orders.iter().all(|row| is_fit_order(around, row))
}

fn is_fit_order(around: &Around, row: &OrderRow) -> bool
    ensures { result ≡ is_fit_order_of around.now row.now }
{
    is_given(row.ticket, around.readers)
        && around.containers.contains(row.container)
        && 1 <= row.state
        && row.state <= 4
        && is_day(row.day)
        && row.day <= around.day
}

/// Who placed each order, and when.
fn placings_of(alloc: Global, orders: &[OrderRow]) -> Result<Vec<(u64, i64)>, AllocError>
    ensures { IfOk result (λ placings. placings.items ≡ map placing orders.now) }
{
    orders
        .iter()
        .map(|row| (row.ticket, row.day))
        .collect(alloc)
}

fn waits_or_is_out(row: &OrderRow) -> bool
    ensures { result ≡ waits_or_is_out_of row.now }
{
    1 <= row.state && row.state <= 2
}

/// Who asks for which container: the orders that wait or are out.
fn askings_of(alloc: Global, orders: &[OrderRow]) -> Result<Vec<(u64, u64)>, AllocError>
    ensures { IfOk result (λ askings. askings.items
        ≡ map asking (filter waits_or_is_out_of orders.now)) }
{
    orders
        .iter()
        .filter(|row| waits_or_is_out(*row))
        .map(|row| (row.ticket, row.container))
        .collect(alloc)
}
