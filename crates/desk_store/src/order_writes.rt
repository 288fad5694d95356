//! Placing orders and changing their states.

ghost use Rattle.std.specs.Prelude.{◌≡◌, nat_eq, false, [], ◌∷◌, OnOk};
ghost use Rattle.std.specs.List.{list_any};
ghost use Rattle.sqlite.specs.Held.{state};
ghost use Rattle.sqlite.specs.State.{HasCleanDisk};
ghost use Rattle.desk_core.specs.DeskRows.{with_state};
ghost use Rattle.office_tables.specs.Calls.{StoreUpdates};
ghost use Rattle.office_tables.specs.Premises.{◌when◌leaves◌, ◌when◌within◌gives◌, ◌within◌adds◌, ◌within◌gives◌};
ghost use Rattle.office_tables.specs.Schema as schema;
ghost use Rattle.office_tables.specs.Step.{PutsRow};
ghost use Rattle.office_tables.specs.TableStatements.{Changes, Puts};
ghost use Rattle.desk_store.specs.Orders.{order_state_number, with_order, with_order_state, IsNextOrder};
ghost use Rattle.desk_store.specs.Rows.{order_cells};
ghost use Rattle.desk_store.specs.Representation.{RepresentsDeskAlone, IsLegible};
ghost use Rattle.office_tables.specs.RowNumbers.{AreCounted};

use crate::orders::OrderState;
use isad_core::{Day, Number};
use office_tables::value::day;
use office_tables::{StoreFault, Tables, Versioned, cell, change};
use sqlite::Alter;

/// Inserts an order under a number that was not given yet. The order waits.
fn insert_order<P: Versioned, S: Alter>(
    tables: &mut Tables<P, S>,
    order: Number,
    ticket: Number,
    container: Number,
    on: Day,
) -> Result<(), StoreFault>
    ensures { Puts S.Store schema.orders order_cells tables.old tables.new result
        within (λ xs. list_any (λ o. nat_eq order o.id) xs ≡ false)
        adds record { id = order; ticket = ticket; container = container; day = on; state = 1 } }
{
    change(
        tables,
        "INSERT INTO orders (id, ticket, container, day, state) VALUES (?1, ?2, ?3, ?4, 1)",
        &[cell(order), cell(ticket), cell(container), day(on)],
    )
}

/// Places an order, which waits. `order` must be the number after the last, and there must be fewer than `MOST_ORDERS`
/// orders. The ticket and the container are not looked up. If the call succeeds, it adds exactly this row, whatever the
/// number, and however many orders there are.
pub fn append_order<P: Versioned, S: Alter>(
    tables: &mut Tables<P, S>,
    order: Number,
    ticket: Number,
    container: Number,
    on: Day,
) -> Result<(), StoreFault>
    ensures updates { StoreUpdates S.Store (schema.orders.tree ∷ []) RepresentsDeskAlone tables.old tables.new result
        when IsNextOrder order within IsLegible gives with_order ticket container on }
    ensures puts { HasCleanDisk (state S.Store tables.new)
        → OnOk result (PutsRow schema.orders.tree
        (order_cells (record { id = order; ticket = ticket; container = container; day = on; state = 1 }))
        (state S.Store tables.old).now (state S.Store tables.new).now) }
{
    insert_order(tables, order, ticket, container, on)
}

/// The number that represents a state in the table: 1 waiting, 2 out, 3 done, 4 cancelled.
fn number_of(next: OrderState) -> Number
    ensures { result ≡ order_state_number next }
{
    match next {
        OrderState::Waiting => Number::from(1),
        OrderState::Out => Number::from(2),
        OrderState::Done => Number::from(3),
        OrderState::Cancelled => Number::from(4),
    }
}

/// Sets the state of an order, which is found by its number. If there is no such order, nothing is changed.
fn set_state<P: Versioned, S: Alter>(
    tables: &mut Tables<P, S>,
    order: Number,
    next: Number,
) -> Result<(), StoreFault>
    ensures { Changes S.Store schema.orders order_cells tables.old tables.new result
        when AreCounted (λ o. o.id) leaves with_state order next }
{
    change(
        tables,
        "UPDATE orders SET state = ?1 WHERE id = ?2",
        &[cell(next), cell(order)],
    )
}

/// Sets the state of an order: any state is accepted, usually out, done or cancelled. If there is no such order,
/// nothing is changed.
pub fn end_order<P: Versioned, S: Alter>(
    tables: &mut Tables<P, S>,
    order: Number,
    next: OrderState,
) -> Result<(), StoreFault>
    ensures updates { StoreUpdates S.Store (schema.orders.tree ∷ []) RepresentsDeskAlone tables.old tables.new result
        within IsLegible gives with_order_state order next }
{
    set_state(tables, order, number_of(next))
}
