//! What a run may take.

ghost use Rattle.std.specs.Prelude.{◌≡◌, ◌||◌, ℕ, not, nat_eq, map, filter, IfOk, OnOk};
ghost use Rattle.std.specs.List.{list_any};
ghost use Rattle.desk_core.specs.DeskRows.{OrderRow};
ghost use Rattle.office_tables.specs.Calls.{StoreAnswers};
ghost use Rattle.office_tables.specs.Premises.{◌when◌gives◌, ◌within◌gives◌};
ghost use Rattle.office_tables.specs.Schema as schema;
ghost use Rattle.office_tables.specs.Step.{Holds};
ghost use Rattle.office_tables.specs.TableStatements.{LooksUp};
ghost use Rattle.desk_store.specs.Holdings.{firsts_of, on_shelf};
ghost use Rattle.desk_store.specs.RunCandidates.{is_earliest};
ghost use Rattle.desk_store.specs.Rows.{order_cells};
ghost use Rattle.desk_store.specs.Representation.{RepresentsDeskAlone, IsLegible};
ghost use Rattle.office_tables.specs.RowNumbers.{AreByNumber, AreCounted};
ghost use Rattle.desk_store.specs.declared.container_orders.ContainerOrder.{ContainerOrder};

use crate::container_orders::ContainerOrder;
use crate::loans::{HoldingLine, holding_lines};
use crate::queues::place_of;
use desk_core::Place;
use office_tables::{StoreFault, Tables, Versioned, find};
use sqlite::Alter;
use std::alloc::{AllocError, Global};
use std::collections::BTreeSet;

/// The orders that wait, in ascending order of their numbers. The index of the orders by state and container finds
/// them, so orders that have ended are not read.
fn waiting_orders<P: Versioned, S: Alter>(
    alloc: Global,
    tables: &mut Tables<P, S>,
) -> Result<Vec<ContainerOrder>, StoreFault>
    ensures { LooksUp S.Store (Holds schema.orders order_cells) tables.old tables.new result
        when AreCounted (λ o. o.id) gives λ xs found. found.items
        ≡ map (λ (o : OrderRow). record { container = o.container; order = o.id; ticket = o.ticket })
        (filter (λ (o : OrderRow). nat_eq 1 o.state) xs) }
{
    find(
        alloc,
        tables,
        "SELECT container, id, ticket FROM orders WHERE state = 1 ORDER BY id",
        &[],
    )
}

/// Adds the number of a container to the set. Returns whether it was not in it before.
fn keep(known: &mut BTreeSet<u64>, container: u64) -> Result<bool, AllocError>
    ensures new { IfOk result (λ new. new ≡ not (list_any (nat_eq container) known.old.keys)) }
    ensures kept { OnOk result ((c : ℕ)
        → list_any (nat_eq c) known.new.keys ≡ (nat_eq c container || list_any (nat_eq c) known.old.keys)) }
{
    let is_new = known.insert(container)?;
    Ok(is_new)
}

/// The first of these orders for each container. The orders must be in ascending order of their numbers.
fn firsts(alloc: Global, orders: &[ContainerOrder]) -> Result<Vec<ContainerOrder>, AllocError>
    ensures { AreByNumber (λ (o : ContainerOrder). o.order) orders.now
        → IfOk result (λ firsts. firsts.items ≡ filter (λ o. is_earliest o orders.now) orders.now) }
{
    let mut known = BTreeSet::new(alloc);
    let mut firsts = Vec::new(alloc);
    for order in orders {
        if keep(&mut known, order.container.get())? {
            firsts.push(*order)?;
        }
    }
    Ok(firsts)
}

/// The first order of each container for which one waits, wherever the container is, in ascending order of the numbers
/// of these orders.
pub fn first_orders<P: Versioned, S: Alter>(
    alloc: Global,
    tables: &mut Tables<P, S>,
) -> Result<Vec<ContainerOrder>, StoreFault>
    ensures answers { StoreAnswers S.Store RepresentsDeskAlone tables.old tables.new result
        within IsLegible gives λ _ d all. all.items ≡ firsts_of d }
{
    let orders = waiting_orders(alloc, tables)?;
    let firsts = firsts(alloc, &orders)?;
    Ok(firsts)
}

/// The containers that are not on the shelf.
fn containers_off_shelf(alloc: Global, lines: &[HoldingLine]) -> Result<BTreeSet<u64>, AllocError>
    ensures { IfOk result (λ known. (c : ℕ)
        → list_any (nat_eq c) known.keys ≡ list_any (λ (h : HoldingLine). nat_eq c h.container) lines.now) }
{
    let mut known = BTreeSet::new(alloc);
    for line in lines {
        keep(&mut known, line.container.get())?;
    }
    Ok(known)
}

/// Whether a container is among these.
fn is_known(known: &BTreeSet<u64>, container: u64) -> bool
    ensures { result ≡ list_any (nat_eq container) known.now.keys }
{
    known.contains(&container)
}

/// The orders whose containers are not among these, in the same order.
fn without(
    alloc: Global,
    known: &BTreeSet<u64>,
    orders: &[ContainerOrder],
) -> Result<Vec<ContainerOrder>, AllocError>
    ensures { IfOk result (λ kept. kept.items
        ≡ filter (λ (o : ContainerOrder). not (list_any (nat_eq o.container) known.now.keys)) orders.now) }
{
    let mut kept = Vec::new(alloc);
    for order in orders {
        if !is_known(known, order.container.get()) {
            kept.push(*order)?;
        }
    }
    Ok(kept)
}

/// Those of these orders whose containers are on the shelf, by the rows of all containers that are not.
fn on_shelf_by_list<P: Versioned, S: Alter>(
    alloc: Global,
    tables: &mut Tables<P, S>,
    orders: &[ContainerOrder],
) -> Result<Vec<ContainerOrder>, StoreFault>
    ensures answers { StoreAnswers S.Store RepresentsDeskAlone tables.old tables.new result
        within IsLegible gives λ _ d kept. kept.items ≡ on_shelf d orders.now }
{
    let lines = holding_lines(alloc, tables)?;
    let known = containers_off_shelf(alloc, &lines)?;
    Ok(without(alloc, &known, orders)?)
}

/// Those of these orders whose containers are on the shelf. Each place is found by the container's number.
fn on_shelf_by_number<P: Versioned, S: Alter>(
    alloc: Global,
    tables: &mut Tables<P, S>,
    orders: &[ContainerOrder],
) -> Result<Vec<ContainerOrder>, StoreFault>
    ensures answers { StoreAnswers S.Store RepresentsDeskAlone tables.old tables.new result
        within IsLegible gives λ _ d kept. kept.items ≡ on_shelf d orders.now }
{
    let mut kept = Vec::new(alloc);
    for order in orders {
        if place_of(alloc, tables, order.container)? == Place::Shelf {
            kept.push(*order)?;
        }
    }
    Ok(kept)
}

/// Those of these orders whose containers are on the shelf, in the same order. The places of a few containers are found
/// by their numbers; of many, all containers that are not on the shelf are read.
pub fn on_shelf<P: Versioned, S: Alter>(
    alloc: Global,
    tables: &mut Tables<P, S>,
    orders: &[ContainerOrder],
) -> Result<Vec<ContainerOrder>, StoreFault>
    ensures answers { StoreAnswers S.Store RepresentsDeskAlone tables.old tables.new result
        within IsLegible gives λ _ d kept. kept.items ≡ on_shelf d orders.now }
{
    if orders.len() > FEW_ORDERS {
        return on_shelf_by_list(alloc, tables, orders);
    }
    on_shelf_by_number(alloc, tables, orders)
}

/// Of so many orders the places are found one by one. That takes as long as reading the rows of some two hundred
/// containers.
const FEW_ORDERS: usize = 32;
