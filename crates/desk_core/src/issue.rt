//! May a container be issued to a ticket?
ghost use Rattle.std.specs.Prelude.{◌≡◌, Some};
ghost use Rattle.std.specs.Result.{result_err};
ghost use Rattle.std.specs.Option.{option_copied};
ghost use Rattle.desk_core.specs.Checks.{issue_checks};
ghost use Rattle.desk_core.specs.Decisions.{issue_facts};
ghost use Rattle.desk_core.specs.Refusals.{first_that_holds};

use crate::reader::{Limits, Place, Reader};
use crate::refusal::Refusal;
use isad_core::Day;

/// What decides an issue, besides the reader.
#[derive(Debug, Clone, Copy, PartialEq, Eq)]
pub struct AtDesk {
    pub place: Place,
    /// The ticket of the first order that waits for the container.
    pub head: Option<u64>,
    /// Whether the container is open to the reader today.
    pub is_open: bool,
}

/// May the container be issued to the ticket? The container is known: `known_container` refuses any other. `reader` is
/// `None` if the ticket was not given; such a ticket is not first in any queue. The refusal is the first of these that
/// holds: `NotAtDesk`, `NotFirst`, `TicketExpired`, `NotSeated`, `HandsFull`, `NotAvailable`.
pub fn may_issue(
    container: &AtDesk,
    ticket: u64,
    reader: Option<&Reader>,
    today: Day,
    limits: &Limits,
) -> Result<(), Refusal>
    ensures { result_err result
        ≡ first_that_holds (issue_checks
        (issue_facts (Some container.now) ticket (option_copied reader.entry) today limits.now)) }
{
    if container.place != Place::Desk {
        return Err(Refusal::NotAtDesk);
    }
    let Some(reader) = reader else {
        return Err(Refusal::NotFirst);
    };
    if container.head != Some(ticket) {
        return Err(Refusal::NotFirst);
    }
    if reader.until < today {
        return Err(Refusal::TicketExpired);
    }
    if reader.seat.is_none() {
        return Err(Refusal::NotSeated);
    }
    if reader.held >= limits.hands {
        return Err(Refusal::HandsFull);
    }
    if !container.is_open {
        return Err(Refusal::NotAvailable);
    }
    Ok(())
}
