//! Cancelling an order that waits.

ghost use Rattle.std.specs.Prelude.{◌≡◌, nat_eq, true, ⊤};
ghost use Rattle.sqlite.specs.Held.{state};
ghost use Rattle.desk_store.specs.Orders.{order_state_number};
ghost use Rattle.office_core.specs.State.{waits};
ghost use Rattle.office_core.specs.declared.command.Command.TheVariants as command;
ghost use Rattle.desk_commands.specs.SparedCatalogue.{PerformsSparing};

use catalogue_store::Places;
use desk_store::{OrderState, end_order, order};
use isad_core::Number;
use office_core::{Done, Refusal};
use office_tables::{StoreFault, Tables};
use sqlite::Alter;
use std::alloc::Global;

/// Whether an order in this state waits.
fn is_waiting(state: OrderState) -> bool
    ensures { result ≡ nat_eq (order_state_number state) 1 }
{
    matches!(state, OrderState::Waiting)
}

/// Cancels an order that is known to wait.
fn end_waiting<P: Places, S: Alter>(
    tables: &mut Tables<P, S>,
    order: Number,
) -> Result<Result<Done, Refusal>, StoreFault>
    ensures { PerformsSparing P.represents P.version S.Store (λ s. waits s order ≡ true) (command.Cancel order)
        tables.old tables.new result }
{
    end_order(tables, order, OrderState::Cancelled)?;
    Ok(Ok(Done::Cancel { order: order.get() }))
}

/// Cancels an order, and tells its number. The command is refused if the order was not placed or does not wait. After a
/// refusal the caller must roll the transaction back.
pub fn cancel<P: Places, S: Alter>(
    alloc: Global,
    tables: &mut Tables<P, S>,
    number: Number,
) -> Result<Result<Done, Refusal>, StoreFault>
    ensures { PerformsSparing P.represents P.version S.Store (λ _. ⊤) (command.Cancel number)
        tables.old tables.new result }
{
    let Some(placed) = order(alloc, tables, number)? else {
        return Ok(Err(Refusal::UnknownOrder));
    };
    if !is_waiting(placed.state) {
        return Ok(Err(Refusal::OrderNotWaiting));
    }
    end_waiting(tables, number)
}
