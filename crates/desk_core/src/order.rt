//! May a ticket order a container?
ghost use Rattle.std.specs.Prelude.{◌≡◌};
ghost use Rattle.std.specs.Result.{result_err};
ghost use Rattle.std.specs.Option.{option_copied};
ghost use Rattle.desk_core.specs.Checks.{order_checks};
ghost use Rattle.desk_core.specs.Decisions.{order_facts};
ghost use Rattle.desk_core.specs.Refusals.{first_that_holds};

use crate::reader::{Limits, Reader};
use crate::refusal::Refusal;
use isad_core::Day;
use isad_core::limits::MOST_ORDERS;

/// What decides an order, besides the reader.
#[derive(Debug, Clone, Copy, PartialEq, Eq)]
pub struct Ask {
    /// Whether the container is known, and open to the reader today.
    pub is_open: bool,
    /// Whether an order of the ticket for the container waits or is out.
    pub already: bool,
    /// How many orders the ticket placed today, including cancelled ones.
    pub placed: u32,
    /// How many orders there are, of all tickets.
    pub orders: u64,
}

/// May the reader order the container? `reader` is `None` if the ticket was not given. The refusal is the first of
/// these that holds: `UnknownTicket`, `TicketExpired`, `NotAvailable`, `AlreadyOrdered`, `DailyLimit`, `Full`.
pub fn may_order(
    reader: Option<&Reader>,
    today: Day,
    ask: &Ask,
    limits: &Limits,
) -> Result<(), Refusal>
    ensures { result_err result
        ≡ first_that_holds (order_checks
        (order_facts (option_copied reader.entry) today ask.now limits.now)) }
{
    let Some(reader) = reader else {
        return Err(Refusal::UnknownTicket);
    };
    if reader.until < today {
        return Err(Refusal::TicketExpired);
    }
    if !ask.is_open {
        return Err(Refusal::NotAvailable);
    }
    if ask.already {
        return Err(Refusal::AlreadyOrdered);
    }
    if ask.placed >= limits.daily {
        return Err(Refusal::DailyLimit);
    }
    if ask.orders >= MOST_ORDERS {
        return Err(Refusal::Full);
    }
    Ok(())
}
