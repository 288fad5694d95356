//! The rules of the day about the containers that are out. A reader who has one must have a seat, must not have more
//! containers than are allowed at once, and must be allowed to see what lies in it.

ghost use Rattle.std.specs.Prelude.{◌≡◌, IfErr, IfOk, IsPermutation, map, nat_eq, not};
ghost use Rattle.std.specs.List.{list_any};
ghost use Rattle.std.specs.List.Sorted.{IsNonDecreasing};
ghost use Rattle.sqlite.specs.Held.{state};
ghost use Rattle.sqlite.specs.State.{HasCleanDisk};
ghost use Rattle.desk_store.specs.declared.container_orders.ContainerOrder.{ContainerOrder as Lent};
ghost use Rattle.desk_store.specs.declared.taken_seats.TakenSeat.{TakenSeat as Taken};
ghost use Rattle.desk_store.specs.Representation.{RepresentsDeskAlone, IsLegible};
ghost use Rattle.office_tables.specs.Calls.{Answers};
ghost use Rattle.office_tables.specs.Faults.{BlamesDisk};
ghost use Rattle.office_tables.specs.Premises.{◌within◌gives◌};
ghost use Rattle.access.specs.DayRules.{are_against_rules as are_against_rules_of, breaks_day_rules};
ghost use Rattle.access.specs.DayRules.{has_no_row, has_too_many, number_occurs_more_than};
ghost use Rattle.refinement.specs.AccessConditions.{CanBeJudged, RepresentsWhole};

use crate::gate::first_closed;
use catalogue_store::Places;
use desk_store::{ContainerOrder, TakenSeat, issued, seats};
use isad_core::{Day, Number};
use office_tables::{StoreFault, Tables, Versioned};
use sqlite::Alter;
use std::alloc::{AllocError, Global};

/// The tickets that have these containers: one for each container, in ascending order.
fn holders(alloc: Global, loans: &[ContainerOrder]) -> Result<Vec<u64>, AllocError>
    ensures same { IfOk result (λ tickets. IsPermutation (map (λ (loan : Lent). loan.ticket) loans.now) tickets.items) }
    ensures rise { IfOk result (λ tickets. IsNonDecreasing tickets.items) }
{
    let mut tickets = loans
        .iter()
        .map(|loan| loan.ticket.get())
        .collect::<Vec<u64>>(alloc)?;
    tickets.sort_unstable();
    Ok(tickets)
}

/// Whether one of these numbers occurs more than `most` times. They must be in ascending order, so that equal ones are
/// adjacent.
fn occurs_more_than(numbers: &[u64], most: usize) -> bool
    ensures { IsNonDecreasing numbers.now → result ≡ number_occurs_more_than most numbers.now }
{
    for i in most..numbers.len() {
        if numbers[i - most] == numbers[i] {
            return true;
        }
    }
    false
}

/// Whether a reader has more than `hands` of these containers.
fn are_too_many(alloc: Global, loans: &[ContainerOrder], hands: u32) -> Result<bool, AllocError>
    ensures { IfOk result (λ yes. yes ≡ list_any (has_too_many hands loans.now) loans.now) }
{
    let tickets = holders(alloc, loans)?;
    Ok(occurs_more_than(&tickets, hands as usize))
}

/// Whether a ticket has one of these seats. There are no more of them than seats in an office.
fn has_seat(taken: &[TakenSeat], ticket: Number) -> bool
    ensures { result ≡ list_any (λ (seat : Taken). nat_eq ticket seat.ticket) taken.now }
{
    taken.iter().any(|seat| ticket == seat.ticket)
}

/// Whether a reader who has one of these containers has none of these seats.
fn lacks_seat(loans: &[ContainerOrder], taken: &[TakenSeat]) -> bool
    ensures { result ≡ list_any (λ (loan : Lent). not (list_any
        (λ (seat : Taken). nat_eq loan.ticket seat.ticket) taken.now)) loans.now }
{
    loans.iter().any(|loan| !has_seat(taken, loan.ticket))
}

/// Whether a reader who has one of these containers has no seat.
fn is_one_without_seat<P: Versioned, S: Alter>(
    alloc: Global,
    tables: &mut Tables<P, S>,
    loans: &[ContainerOrder],
) -> Result<bool, StoreFault>
    ensures answers { Answers S.Store RepresentsDeskAlone tables.old tables.new result
        within IsLegible gives λ _ d yes. yes ≡ list_any (has_no_row d) loans.now }
    ensures disk { HasCleanDisk (state S.Store tables.new)
        → IfErr result (BlamesDisk (state S.Store tables.old) (state S.Store tables.new)) }
{
    let taken = seats(alloc, tables)?;
    Ok(lacks_seat(loans, &taken))
}

/// Whether one of these containers is out against a rule of the day, given that no others are out.
fn are_against_rules<P: Places, S: Alter>(
    alloc: Global,
    tables: &mut Tables<P, S>,
    loans: &[ContainerOrder],
    hands: u32,
    today: Day,
) -> Result<bool, StoreFault>
    ensures answers { Answers S.Store (RepresentsWhole P.represents P.version) tables.old tables.new result
        within CanBeJudged gives λ _ s broken. CanBeJudged s → today ≡ s.day → hands ≡ s.settings.hands
        → broken ≡ are_against_rules_of s loans.now }
    ensures disk { HasCleanDisk (state S.Store tables.new)
        → IfErr result (BlamesDisk (state S.Store tables.old) (state S.Store tables.new)) }
{
    if are_too_many(alloc, loans, hands)? {
        return Ok(true);
    }
    if is_one_without_seat(alloc, tables, loans)? {
        return Ok(true);
    }
    let closed = first_closed(alloc, tables, None, loans, today)?;
    Ok(closed.is_some())
}

/// Whether some container is out with a reader who has no seat, who has more than `hands` containers, or to whom it is
/// not open today. `hands` and `today` must be the office's.
pub fn breaks_day_rules<P: Places, S: Alter>(
    alloc: Global,
    tables: &mut Tables<P, S>,
    hands: u32,
    today: Day,
) -> Result<bool, StoreFault>
    ensures answers { Answers S.Store (RepresentsWhole P.represents P.version) tables.old tables.new result
        within CanBeJudged
        gives λ _ s broken. CanBeJudged s → today ≡ s.day → hands ≡ s.settings.hands → broken ≡ breaks_day_rules s }
    ensures disk { HasCleanDisk (state S.Store tables.new)
        → IfErr result (BlamesDisk (state S.Store tables.old) (state S.Store tables.new)) }
{
    let loans = issued(alloc, tables)?;
    are_against_rules(alloc, tables, &loans, hands, today)
}
