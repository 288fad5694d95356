//! Seats and permits of the readers.
ghost use Rattle.std.specs.Prelude.{◌≡◌, IfOk, map};
ghost use Rattle.std.specs.List.{list_all};
ghost use Rattle.desk_core.specs.DeskCauses.{Around as Held, is_good_seat, is_good_permit};
ghost use Rattle.desk_core.specs.DeskRows.{Desk};
ghost use Rattle.desk_core.specs.RowRecords.{Surrounds, seat_record, permit_record};
ghost use Rattle.desk_core.specs.Consistency.{is_fit_seat, is_fit_permit};

use crate::consistency::context::{Around, is_given};
use crate::consistency::rows::{PermitRow, SeatRow};
use crate::consistency::tally::Tally;
use isad_core::is_day;
use isad_core::limits::MOST_PERMITS;
use std::alloc::{AllocError, Global};

/// Whether each seat is one of the office's and is taken by a reader.
pub fn are_good_seats(around: &Around, seats: &[SeatRow]) -> bool
    ensures { (a : Held) (d : Desk) → Surrounds around.now a d → d.seats ≡ map seat_record seats.now
        → result ≡ list_all (is_good_seat a d) d.seats }
{
    seats_are_fit(around, seats)
}

fn seats_are_fit(around: &Around, seats: &[SeatRow]) -> bool
    ensures { result ≡ list_all (is_fit_seat around.now) seats.now }
{
    seats.iter().all(|row| is_given(row.seat, around.seats) && is_given(row.ticket, around.readers))
}

/// Whether each permit is a reader's, for a unit that exists, until a day of the calendar, and no ticket has more
/// permits than it may. They may come in any order.
pub fn are_good_permits(
    alloc: Global,
    around: &Around,
    permits: &[PermitRow],
) -> Result<bool, AllocError>
    ensures { IfOk result (λ good. (a : Held) (d : Desk) → Surrounds around.now a d
        → d.permits ≡ map permit_record permits.now → good ≡ list_all (is_good_permit a d) d.permits) }
{
    let tickets = tickets_of(alloc, permits)?;
    let tally = Tally::of(alloc, around.readers, &tickets)?;
    Ok(permits_are_fit(around, &tally, permits))
}

fn tickets_of(alloc: Global, permits: &[PermitRow]) -> Result<Vec<u64>, AllocError>
    ensures { IfOk result (λ tickets. tickets.items ≡ map (λ row. row.ticket) permits.now) }
{
    permits.iter().map(|row| row.ticket).collect(alloc)
}

fn permits_are_fit(around: &Around, tickets: &Tally, permits: &[PermitRow]) -> bool
    ensures { result ≡ list_all (is_fit_permit around.now tickets.now) permits.now }
{
    permits
        .iter()
        .all(|row| is_fit_permit(around, tickets, row))
}

fn is_fit_permit(around: &Around, tickets: &Tally, row: &PermitRow) -> bool
    ensures { result ≡ is_fit_permit around.now tickets.now row.now }
{
    is_given(row.ticket, around.readers)
        && around.units.contains(row.unit)
        && is_day(row.until)
        && tickets.times(row.ticket) <= MOST_PERMITS
}
