//! The orders that wait for containers.

ghost use Rattle.std.specs.Prelude.{◌≡◌, ◌≤◌, length, map, filter, find, option_map, ⊤};
ghost use Rattle.std.specs.List.{count_by, list_any};
ghost use Rattle.sqlite.specs.Held.{state};
ghost use Rattle.isad_core.specs.Limits.{most_orders};
ghost use Rattle.desk_core.specs.DeskRows.{OrderRow};
ghost use Rattle.office_tables.specs.Calls.{StoreAnswers};
ghost use Rattle.office_tables.specs.Premises.{◌when◌gives◌, ◌when◌within◌gives◌, ◌within◌gives◌};
ghost use Rattle.office_tables.specs.Schema as schema;
ghost use Rattle.office_tables.specs.Step.{Holds};
ghost use Rattle.office_tables.specs.TableStatements.{LooksUp};
ghost use Rattle.desk_store.specs.Holdings.{waits_for};
ghost use Rattle.desk_store.specs.Rows.{order_cells};
ghost use Rattle.desk_store.specs.Representation.{RepresentsDeskAlone, IsLegible};
ghost use Rattle.office_tables.specs.RowNumbers.{AreCounted};

use crate::orders::WaitingOrder;
use isad_core::Number;
use office_tables::from_row::FromRow;
use office_tables::{StoreFault, Tables, Versioned, cell, find, find_number, find_one, number_at};
use sqlite::{Alter, Row};
use std::alloc::Global;

impl FromRow for WaitingOrder {
    ghost use Rattle.std.specs.Prelude.{pos, [], ◌∷◌, ⊤};
    ghost use Rattle.sqlite.specs.declared.types.Value.TheVariants.{Int};

    ghost cells = { λ o. Int (pos o.order) ∷ Int (pos o.ticket) ∷ [] };

    ghost is_legible = { λ _. ⊤ };

    fn read(row: &Row) -> Result<WaitingOrder, StoreFault> {
        Ok(WaitingOrder {
            order: number_at(row, 0)?,
            ticket: number_at(row, 1)?,
        })
    }
}

/// The orders that wait for a container, in ascending order of their numbers. The index of the orders by state and
/// container finds them, in this order.
pub(crate) fn waiting_for<P: Versioned, S: Alter>(
    alloc: Global,
    tables: &mut Tables<P, S>,
    container: Number,
) -> Result<Vec<WaitingOrder>, StoreFault>
    ensures { LooksUp S.Store (Holds schema.orders order_cells) tables.old tables.new result
        when AreCounted (λ o. o.id)
        gives λ xs found. found.items ≡ map (λ (o : OrderRow). record { order = o.id; ticket = o.ticket })
        (filter (waits_for container) xs) }
{
    find(
        alloc,
        tables,
        "SELECT id, ticket FROM orders WHERE state = 1 AND container = ?1 ORDER BY id",
        &[cell(container)],
    )
}

/// The first order that waits for a container: the one with the least number, or none if none waits. The same index
/// finds it, and the orders behind it are not read.
pub(crate) fn first_for<P: Versioned, S: Alter>(
    alloc: Global,
    tables: &mut Tables<P, S>,
    container: Number,
) -> Result<Option<WaitingOrder>, StoreFault>
    ensures { LooksUp S.Store (Holds schema.orders order_cells) tables.old tables.new result
        when AreCounted (λ o. o.id)
        gives λ xs found. found ≡ option_map (λ (o : OrderRow). record { order = o.id; ticket = o.ticket })
        (find (waits_for container) xs) }
{
    find_one(
        alloc,
        tables,
        "SELECT id, ticket FROM orders WHERE state = 1 AND container = ?1 ORDER BY id LIMIT 1",
        &[cell(container)],
    )
}

/// How many orders wait for a container, counted by the same index. There must be no more than `MOST_ORDERS` orders.
fn count_waiting<P: Versioned, S: Alter>(
    tables: &mut Tables<P, S>,
    container: Number,
) -> Result<u32, StoreFault>
    ensures { LooksUp S.Store (Holds schema.orders order_cells) tables.old tables.new result
        when (λ xs. length xs ≤ most_orders) within (λ xs. length xs ≤ most_orders)
        gives λ xs n. n ≡ count_by (waits_for container) xs }
{
    find_number(
        tables,
        "SELECT count(*) FROM orders WHERE state = 1 AND container = ?1",
        &[cell(container)],
    )
}

/// Whether an order waits for a container.
pub(crate) fn is_awaited<P: Versioned, S: Alter>(
    tables: &mut Tables<P, S>,
    container: Number,
) -> Result<bool, StoreFault>
    ensures answers { StoreAnswers S.Store RepresentsDeskAlone tables.old tables.new result
        within IsLegible gives λ _ d awaited. awaited ≡ list_any (waits_for container) d.orders }
{
    let waiting = count_waiting(tables, container)?;
    Ok(waiting > 0)
}
