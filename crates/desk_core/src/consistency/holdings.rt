//! Where the containers are.
ghost use Rattle.std.specs.Prelude.{◌≡◌, IfOk, map, false};
ghost use Rattle.std.specs.List.{list_all};
ghost use Rattle.desk_core.specs.DeskCauses.{Around as Held, are_good_holdings, orders_are_bad};
ghost use Rattle.desk_core.specs.DeskRows.{Desk};
ghost use Rattle.desk_core.specs.RowRecords.{Surrounds, order_record, holding_record};
ghost use Rattle.desk_core.specs.Consistency.{holder, is_held, is_fit_holding, is_order_out_for};
ghost use Rattle.desk_core.specs.Consistency.{lies_well as lies_well_of};

use crate::consistency::context::Around;
use crate::consistency::numbers::nth_order;
use crate::consistency::rows::{HoldingRow, OrderRow};
use crate::consistency::tally::Tally;
use std::alloc::{AllocError, Global};

/// Whether the holdings are those of a desk with these orders. The orders must be good: if they are not, the contract
/// says nothing. The holdings may come in any order.
pub fn are_good_holdings(
    alloc: Global,
    around: &Around,
    orders: &[OrderRow],
    holdings: &[HoldingRow],
) -> Result<bool, AllocError>
    ensures { IfOk result (λ good. (a : Held) (d : Desk) → Surrounds around.now a d
        → d.orders ≡ map order_record orders.now → d.holdings ≡ map holding_record holdings.now
        → orders_are_bad a d ≡ false → good ≡ are_good_holdings a d) }
{
    if !are_fit(around, orders, holdings) {
        return Ok(false);
    }
    let holders = holders_of(alloc, holdings)?;
    let tally = Tally::of(alloc, orders.len() as u64, &holders)?;
    Ok(are_held(&tally, orders))
}

/// Whether each holding is of a known container and in a state that the orders allow.
fn are_fit(around: &Around, orders: &[OrderRow], holdings: &[HoldingRow]) -> bool
    ensures { result ≡ list_all (is_fit_holding around.now orders.now) holdings.now }
{
    holdings.iter().all(|row| around.containers.contains(row.container) && lies_well(orders, row))
}

fn lies_well(orders: &[OrderRow], row: &HoldingRow) -> bool
    ensures { result ≡ lies_well_of orders.now row.now }
{
    match row.held_by {
        None => row.place == 1,
        Some(order) => row.place == 2 && is_out(orders, row.container, order),
    }
}

/// Whether the order with this number is out with this container.
fn is_out(orders: &[OrderRow], container: u64, number: u64) -> bool
    ensures { result ≡ is_order_out_for orders.now container number }
{
    match nth_order(orders, number) {
        None => false,
        Some(order) => order.container == container && order.state == 2,
    }
}

/// The order that each container is out with, or 0.
fn holders_of(alloc: Global, holdings: &[HoldingRow]) -> Result<Vec<u64>, AllocError>
    ensures { IfOk result (λ holders. holders.items ≡ map holder holdings.now) }
{
    holdings
        .iter()
        .map(|row| row.held_by.unwrap_or(0))
        .collect(alloc)
}

/// Whether each order that is out has a container that is out with it.
fn are_held(holders: &Tally, orders: &[OrderRow]) -> bool
    ensures { result ≡ list_all (is_held holders.now) orders.now }
{
    orders
        .iter()
        .all(|row| row.state != 2 || holders.times(row.id) >= 1)
}
