//! May a reader take a seat, or leave it?
ghost use Rattle.std.specs.Prelude.{◌≡◌, IfOk, Some};
ghost use Rattle.std.specs.Result.{result_err};
ghost use Rattle.std.specs.Option.{option_copied};
ghost use Rattle.std.specs.List.Sorted.{IsNonDecreasing};
ghost use Rattle.desk_core.specs.Checks.{leave_seat_checks, take_seat_checks};
ghost use Rattle.desk_core.specs.Decisions.{free_seat, leave_seat_facts, reader_seat, take_seat_facts};
ghost use Rattle.desk_core.specs.Refusals.{first_that_holds};

use crate::reader::{Limits, Reader};
use crate::refusal::Refusal;
use isad_core::Day;

/// May the reader take a seat, and which one? It is the lowest that is free. `taken` has the taken seats, ascending.
/// `reader` is `None` if the ticket was not given. The refusal is the first of these that holds: `UnknownTicket`,
/// `TicketExpired`, `AlreadySeated`, `NoSeatFree`.
pub fn may_sit(
    reader: Option<&Reader>,
    today: Day,
    taken: &[u32],
    limits: &Limits,
) -> Result<u32, Refusal>
    requires { IsNonDecreasing taken.now }
    ensures refused { result_err result
        ≡ first_that_holds (take_seat_checks
        (take_seat_facts (option_copied reader.entry) today taken.now limits.now)) }
    ensures seat { IfOk result (λ seat. free_seat taken.now limits.now.seats ≡ Some seat) }
{
    let Some(reader) = reader else {
        return Err(Refusal::UnknownTicket);
    };
    if reader.until < today {
        return Err(Refusal::TicketExpired);
    }
    if reader.seat.is_some() {
        return Err(Refusal::AlreadySeated);
    }
    least_free_seat(taken, limits.seats).ok_or(Refusal::NoSeatFree)
}

/// The lowest seat from 1 to `seats` that is not taken.
fn least_free_seat(taken: &[u32], seats: u32) -> Option<u32>
    requires { IsNonDecreasing taken.now }
    ensures { result ≡ free_seat taken.now seats }
{
    let mut least = 1;
    for seat in taken {
        if *seat == least {
            if least >= seats {
                return None;
            }
            least += 1;
        }
    }
    if least <= seats { Some(least) } else { None }
}

/// May the reader leave the seat, and which seat becomes free? `reader` is `None` if the ticket was not given. The
/// refusal is the first of these that holds: `UnknownTicket`, `NotSeated`, `HoldsContainers`.
pub fn may_leave(reader: Option<&Reader>) -> Result<u32, Refusal>
    ensures refused { result_err result
        ≡ first_that_holds (leave_seat_checks (leave_seat_facts (option_copied reader.entry))) }
    ensures seat { IfOk result (λ seat. reader_seat (option_copied reader.entry) ≡ Some seat) }
{
    let Some(reader) = reader else {
        return Err(Refusal::UnknownTicket);
    };
    let Some(seat) = reader.seat else {
        return Err(Refusal::NotSeated);
    };
    if reader.held > 0 {
        return Err(Refusal::HoldsContainers);
    }
    Ok(seat)
}
