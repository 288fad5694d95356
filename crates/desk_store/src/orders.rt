//! Orders, from when they are placed to when they end.

ghost use Rattle.std.specs.Prelude.{◌≡◌, ◌≤◌, nat_eq, find, option_map, IfOk, ◌≢◌, IfErr};
ghost use Rattle.std.specs.Prelude.{IsOk};
ghost use Rattle.std.specs.List.{AllByRecursion};
ghost use Rattle.sqlite.specs.Held.{state};
ghost use Rattle.desk_core.specs.DeskRows.{OrderRow};
ghost use Rattle.office_tables.specs.Calls.{StoreAnswers};
ghost use Rattle.office_tables.specs.Premises.{◌when◌within◌gives◌, ◌within◌gives◌};
ghost use Rattle.office_tables.specs.Schema as schema;
ghost use Rattle.office_tables.specs.Step.{Holds};
ghost use Rattle.office_tables.specs.TableStatements.{LooksUp};
ghost use Rattle.desk_store.specs.Orders.{order_state_number, order_with, IsThere};
ghost use Rattle.desk_store.specs.Rows.{order_cells};
ghost use Rattle.desk_store.specs.Representation.{IsLegibleOrder, RepresentsDeskAlone, IsLegible};
ghost use Rattle.office_tables.specs.RowNumbers.{AreCounted};

use isad_core::{Day, Number};
use office_tables::from_row::FromRow;
use office_tables::{StoreFault, Tables, Versioned, cell, find_one, number_at};
use sqlite::{Alter, Row};
use std::alloc::Global;

/// The state of an order.
#[derive(Debug, Clone, Copy, PartialEq, Eq)]
pub enum OrderState {
    Waiting,
    Out,
    Done,
    Cancelled,
}

/// An order that was placed.
#[derive(Debug, Clone, Copy, PartialEq, Eq)]
pub struct PlacedOrder {
    pub ticket: Number,
    pub container: Number,
    /// When it was placed.
    pub day: Day,
    pub state: OrderState,
}

/// An order in the queue of its container.
#[derive(Debug, Clone, Copy, PartialEq, Eq)]
pub struct WaitingOrder {
    pub order: Number,
    pub ticket: Number,
}

/// The row of an order, without its number.
#[derive(Debug, Clone, Copy, PartialEq, Eq, Drop)]
struct OrderEntry {
    ticket: Number,
    container: Number,
    day: Day,
    /// 1 waiting, 2 out, 3 done, 4 cancelled.
    state: u64,
}

impl FromRow for OrderEntry {
    ghost use Rattle.std.specs.Prelude.{◌≡◌, pos, [], ◌∷◌, true};
    ghost use Rattle.sqlite.specs.declared.types.Value.TheVariants.{Int};
    ghost use Rattle.isad_core.specs.Days.{is_day_number};

    ghost cells = { λ o. Int (pos o.ticket) ∷ Int (pos o.container) ∷ Int o.day ∷ Int (pos o.state) ∷ [] };

    ghost is_legible = { λ o. is_day_number o.day ≡ true };

    fn read(row: &Row) -> Result<OrderEntry, StoreFault> {
        let number: i32 = row.get(2)?;
        let Some(day) = Day::from_number(number) else {
            return Err(StoreFault::Schema);
        };
        Ok(OrderEntry {
            ticket: number_at(row, 0)?,
            container: number_at(row, 1)?,
            day,
            state: row.get(3)?,
        })
    }
}

/// The order with this number, or none. It is found by the number of its row.
fn find_order<P: Versioned, S: Alter>(
    alloc: Global,
    tables: &mut Tables<P, S>,
    order: Number,
) -> Result<Option<OrderEntry>, StoreFault>
    ensures { LooksUp S.Store (Holds schema.orders order_cells) tables.old tables.new result
        when AreCounted (λ o. o.id) within AllByRecursion IsLegibleOrder
        gives λ xs found. found ≡ option_map (λ (o : OrderRow).
        record { ticket = o.ticket; container = o.container; day = o.day; state = o.state })
        (find (λ o. nat_eq order o.id) xs) }
{
    find_one(
        alloc,
        tables,
        "SELECT ticket, container, day, state FROM orders WHERE id = ?1 ORDER BY id",
        &[cell(order)],
    )
}

impl OrderEntry {
    /// The order with its state decoded. Fails with `StoreFault::Schema` if there is no such state.
    fn decode(&self) -> Result<PlacedOrder, StoreFault>
        ensures ticket { IfOk result (λ o. o.ticket ≡ self.now.ticket) }
        ensures container { IfOk result (λ o. o.container ≡ self.now.container) }
        ensures day { IfOk result (λ o. o.day ≡ self.now.day) }
        ensures state { IfOk result (λ o. order_state_number o.state ≡ self.now.state) }
        ensures known { 1 ≤ self.now.state → self.now.state ≤ 4 → IsOk result }
        ensures fair { IfErr result (λ e. e ≢ StoreFault.Disk) }
    {
        let state = match self.state {
            1 => OrderState::Waiting,
            2 => OrderState::Out,
            3 => OrderState::Done,
            4 => OrderState::Cancelled,
            _ => return Err(StoreFault::Schema),
        };
        Ok(PlacedOrder {
            ticket: self.ticket,
            container: self.container,
            day: self.day,
            state,
        })
    }
}

/// The order with this number, or none if no such order was placed. If its day or its state is not a valid one, it may
/// fail with `Schema`.
pub fn order<P: Versioned, S: Alter>(
    alloc: Global,
    tables: &mut Tables<P, S>,
    order: Number,
) -> Result<Option<PlacedOrder>, StoreFault>
    ensures answers { StoreAnswers S.Store RepresentsDeskAlone tables.old tables.new result
        within IsLegible gives λ _ d found. IsThere (order_with order d) found }
{
    let Some(entry) = find_order(alloc, tables, order)? else {
        return Ok(None);
    };
    let placed = entry.decode()?;
    Ok(Some(placed))
}
