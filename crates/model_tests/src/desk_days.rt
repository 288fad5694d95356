//! Days at the desk, worked out by hand.

ghost use Rattle.std.specs.List.Sorted.{IsNonDecreasing};

use crate::forests::numbers;
use desk_core::{
    Ask, AtDesk, Candidate, Limits, Place, Reader, Refusal, may_issue, may_leave, may_order,
    may_sit, pick_reshelve, pick_run, slip_text,
};
use isad_core::limits::MOST_ORDERS;
use isad_core::{Day, Number, Text};
use std::alloc::{AllocError, Global};
use std::process::Abort;
use std::test::Fail;

const LIMITS: Limits = Limits {
    seats: 2,
    daily: 3,
    hands: 1,
    run: 2,
};

const TODAY: &str = "2024-03-01";

const TOMORROW: &str = "2024-03-02";

const NEW_YEARS_EVE: &str = "2024-12-31";

fn day(rt: &impl Abort, date: &str) -> Day {
    Day::parse(date).expect(rt, "a date")
}

/// A ticket, its last day, its seat, and how many containers are out with it.
type Ticket = (u64, &'static str, Option<u32>, u32);

fn reader(rt: &impl Abort, ticket: Option<Ticket>) -> Option<Reader> {
    let (ticket, until, seat, held) = ticket?;
    Some(Reader {
        ticket,
        until: day(rt, until),
        seat,
        held,
    })
}

/// A request of ticket 1, which has placed `placed` orders today.
fn asking(placed: u32) -> Ask {
    Ask {
        is_open: true,
        already: false,
        placed,
        orders: u64::from(placed),
    }
}

/// A candidate's container, order and ticket, its location and its name.
type Waiting = (u64, u64, u64, &'static str, &'static str);

fn candidates(alloc: Global, rows: &[Waiting]) -> Result<Vec<Candidate>, AllocError> {
    let mut candidates = Vec::new(alloc);
    for row in rows {
        candidates.push(candidate(alloc, row)?)?;
    }
    Ok(candidates)
}

fn candidate(alloc: Global, row: &Waiting) -> Result<Candidate, AllocError> {
    let &(container, order, ticket, location, name) = row;
    Ok(Candidate {
        container,
        order,
        ticket,
        location: Text::new(alloc, location)?,
        name: Text::new(alloc, name)?,
        kind: Text::new(alloc, "")?,
    })
}

#[test]
fn refusals_have_their_numbers_and_names(rt: HostRuntime) {
    let told = [
        (Refusal::UnknownUnit, 1, "UnknownUnit"),
        (Refusal::UnknownTicket, 2, "UnknownTicket"),
        (Refusal::UnknownContainer, 3, "UnknownContainer"),
        (Refusal::TicketExpired, 4, "TicketExpired"),
        (Refusal::NotAvailable, 5, "NotAvailable"),
        (Refusal::AlreadyOrdered, 6, "AlreadyOrdered"),
        (Refusal::DailyLimit, 7, "DailyLimit"),
        (Refusal::NoSeatFree, 8, "NoSeatFree"),
        (Refusal::AlreadySeated, 9, "AlreadySeated"),
        (Refusal::NotSeated, 10, "NotSeated"),
        (Refusal::HoldsContainers, 11, "HoldsContainers"),
        (Refusal::UnknownOrder, 12, "UnknownOrder"),
        (Refusal::OrderNotWaiting, 13, "OrderNotWaiting"),
        (Refusal::NotAtDesk, 14, "NotAtDesk"),
        (Refusal::NotFirst, 15, "NotFirst"),
        (Refusal::HandsFull, 16, "HandsFull"),
        (Refusal::NotIssued, 17, "NotIssued"),
        (Refusal::DayNotLater, 18, "DayNotLater"),
        (Refusal::StillIssued, 19, "StillIssued"),
        (Refusal::IntoItself, 20, "IntoItself"),
        (Refusal::WithReader { container: 7 }, 21, "WithReader"),
        (Refusal::BadFile { row: 3, cause: 11 }, 22, "BadFile"),
        (Refusal::Full, 23, "Full"),
        (Refusal::NothingToMove, 24, "NothingToMove"),
        (Refusal::TooDeep, 25, "TooDeep"),
        (Refusal::UnknownRun, 26, "UnknownRun"),
        (Refusal::BadName, 27, "BadName"),
        (Refusal::NoPermit, 28, "NoPermit"),
    ];
    for (refusal, code, name) in told {
        assert_eq!(rt; (refusal.code(), refusal.name()), (code, name));
    }
}

/// A request of ticket 1 for a container that is not open to it; it has placed three orders.
const CLOSED: Ask = Ask {
    is_open: false,
    already: false,
    placed: 3,
    orders: 3,
};

const AGAIN: Ask = Ask {
    is_open: true,
    already: true,
    placed: 3,
    orders: 3,
};

/// The first order of a day, after `orders` orders of all readers.
fn after(orders: u64) -> Ask {
    Ask {
        is_open: true,
        already: false,
        placed: 0,
        orders,
    }
}

#[test]
fn orders_are_placed_within_the_limits(rt: HostRuntime) {
    let cases: [(&str, &str, Ask, Result<(), Refusal>); 10] = [
        // three orders, and no fourth; a new day starts from zero
        (NEW_YEARS_EVE, TODAY, asking(2), Ok(())),
        (NEW_YEARS_EVE, TODAY, asking(3), Err(Refusal::DailyLimit)),
        (NEW_YEARS_EVE, TOMORROW, asking(0), Ok(())),
        // the last day is included
        (TODAY, TODAY, asking(0), Ok(())),
        (TODAY, TOMORROW, asking(0), Err(Refusal::TicketExpired)),
        // of several refusals, the reply is the first
        (TODAY, TOMORROW, CLOSED, Err(Refusal::TicketExpired)),
        (NEW_YEARS_EVE, TODAY, CLOSED, Err(Refusal::NotAvailable)),
        (NEW_YEARS_EVE, TODAY, AGAIN, Err(Refusal::AlreadyOrdered)),
        // the last order of all
        (NEW_YEARS_EVE, TODAY, after(MOST_ORDERS - 1), Ok(())),
        (NEW_YEARS_EVE, TODAY, after(MOST_ORDERS), Err(Refusal::Full)),
    ];
    for (until, date, ask, wanted) in cases {
        let reader = reader(&rt, Some((1, until, None, 0)));
        let may = may_order(reader.as_ref(), day(&rt, date), &ask, &LIMITS);
        assert_eq!(rt; may, wanted);
    }
    let unknown = may_order(None, day(&rt, TODAY), &asking(0), &LIMITS);
    assert_eq!(rt; unknown, Err(Refusal::UnknownTicket));
}

const ANN: Ticket = (1, NEW_YEARS_EVE, Some(1), 0);

const ANN_STANDING: Ticket = (1, NEW_YEARS_EVE, None, 0);

const ANN_FULL: Ticket = (1, NEW_YEARS_EVE, Some(1), 1);

const ANN_LATE: Ticket = (1, "2024-02-29", Some(1), 1);

const BOB: Ticket = (2, NEW_YEARS_EVE, None, 0);

const BOB_SEATED: Ticket = (2, NEW_YEARS_EVE, Some(2), 0);

/// Where a container is, the ticket that is first for it, and whether it is open.
type Container = (Place, Option<u64>, bool);

const FOR_ANN: Container = (Place::Desk, Some(1), true);

const FOR_BOB: Container = (Place::Desk, Some(2), true);

const FOR_NOBODY: Container = (Place::Desk, None, true);

fn with_ann() -> Container {
    (Place::Out(Number::from(1)), Some(2), true)
}

const WITHHELD: Container = (Place::Desk, Some(1), false);

/// Whether this container may be issued today to this ticket of this reader.
fn issue(
    rt: &impl Abort,
    container: Container,
    ticket: u64,
    holder: Option<Ticket>,
) -> Result<(), Refusal> {
    let (place, head, is_open) = container;
    let container = AtDesk {
        place,
        head,
        is_open,
    };
    let reader = reader(rt, holder);
    may_issue(&container, ticket, reader.as_ref(), day(rt, TODAY), &LIMITS)
}

#[test]
fn containers_are_issued_in_turn(rt: HostRuntime) {
    let cases = [
        // tickets 1 and 2 wait for it, and it is fetched
        (FOR_ANN, 2, Some(BOB), Err(Refusal::NotFirst)),
        (FOR_ANN, 1, Some(ANN_STANDING), Err(Refusal::NotSeated)),
        (FOR_ANN, 1, Some(ANN), Ok(())),
        (with_ann(), 2, Some(BOB), Err(Refusal::NotAtDesk)),
        (FOR_BOB, 2, Some(BOB_SEATED), Ok(())),
        // a ticket that does not exist is first for no container
        (FOR_ANN, 1, None, Err(Refusal::NotFirst)),
        (FOR_NOBODY, 1, Some(ANN), Err(Refusal::NotFirst)),
        // of several refusals, the reply is the first
        (FOR_ANN, 1, Some(ANN_FULL), Err(Refusal::HandsFull)),
        (WITHHELD, 1, Some(ANN_FULL), Err(Refusal::HandsFull)),
        (WITHHELD, 1, Some(ANN), Err(Refusal::NotAvailable)),
        (WITHHELD, 1, Some(ANN_LATE), Err(Refusal::TicketExpired)),
    ];
    for (container, ticket, holder, wanted) in cases {
        assert_eq!(rt; issue(&rt, container, ticket, holder), wanted);
    }
}

const STANDING: Ticket = (3, NEW_YEARS_EVE, None, 0);

const LATE: Ticket = (1, "2024-02-29", Some(1), 0);

/// Whether this reader may take a seat today, if these seats are taken, and which.
fn sit(rt: &impl Abort, holder: Option<Ticket>, taken: &[u32]) -> Result<u32, Refusal>
    requires { IsNonDecreasing taken.now }
{
    let reader = reader(rt, holder);
    may_sit(reader.as_ref(), day(rt, TODAY), taken, &LIMITS)
}

#[test]
fn seats_are_taken(rt: HostRuntime) {
    let told = [
        sit(&rt, Some(STANDING), &[]),
        sit(&rt, Some(STANDING), &[1]),
        sit(&rt, Some(STANDING), &[2]),
        sit(&rt, Some(STANDING), &[1, 2]),
        sit(&rt, Some(ANN), &[1, 2]),
        sit(&rt, Some(LATE), &[1, 2]),
        sit(&rt, None, &[1, 2]),
    ];
    let wanted = [
        Ok(1),
        Ok(2),
        Ok(1),
        Err(Refusal::NoSeatFree),
        Err(Refusal::AlreadySeated),
        Err(Refusal::TicketExpired),
        Err(Refusal::UnknownTicket),
    ];
    assert_eq!(rt; told, wanted);
}

#[test]
fn seats_are_left(rt: HostRuntime) {
    let cases = [
        (Some(ANN), Ok(1)),
        (Some(STANDING), Err(Refusal::NotSeated)),
        (Some(ANN_FULL), Err(Refusal::HoldsContainers)),
        (None, Err(Refusal::UnknownTicket)),
    ];
    for (holder, wanted) in cases {
        let reader = reader(&rt, holder);
        assert_eq!(rt; may_leave(reader.as_ref()), wanted);
    }
}

/// What a run takes of these candidates.
fn run_of(alloc: Global, rows: &[Waiting], most: u32) -> Result<Vec<Candidate>, AllocError> {
    let candidates = candidates(alloc, rows)?;
    pick_run(alloc, &candidates, most)
}

/// Ticket 1 ordered container 2, ticket 2 containers 2 and 3, ticket 1 container 1.
#[test]
fn a_run_takes_what_was_ordered_first(rt: HostRuntime) -> Result<(), Fail> {
    let alloc = rt.alloc();
    let waiting = [
        (1, 4, 1, "Strongroom 2", "Box 1"),
        (2, 1, 1, "Strongroom 1", "Box 2"),
        (3, 3, 2, "Strongroom 1", "Box 3"),
    ];
    let run = run_of(alloc, &waiting, LIMITS.run)?;
    let taken = [
        (2, 1, 1, "Strongroom 1", "Box 2"),
        (3, 3, 2, "Strongroom 1", "Box 3"),
    ];
    assert_eq!(rt; run.as_slice(), candidates(alloc, &taken)?.as_slice());
    assert_eq!(rt; run_of(alloc, &waiting, 0)?.len(), 0);
    assert_eq!(rt; run_of(alloc, &[], 2)?.len(), 0);
    Ok(())
}

/// Containers at the desk, each with whether an order waits for it.
fn desk_of(alloc: Global, rows: &[(u32, bool)]) -> Result<Vec<(Number, bool)>, AllocError> {
    rows.iter()
        .map(|&(container, waits)| (Number::from(container), waits))
        .collect(alloc)
}

#[test]
fn what_nobody_waits_for_goes_back(rt: HostRuntime) -> Result<(), Fail> {
    // container 1 came back, and an order waits for container 2
    let cases = [
        (&[(9, false), (2, true), (1, false)][..], &[1, 9][..]),
        (&[(2, true)][..], &[][..]),
    ];
    for (desk, wanted) in cases {
        let desk = desk_of(rt.alloc(), desk)?;
        let idle = pick_reshelve(rt.alloc(), &desk)?;
        assert_eq!(rt; idle.as_slice(), numbers(rt.alloc(), wanted)?.as_slice());
    }
    Ok(())
}

/// The slip of a run of these candidates.
fn slip_of(
    alloc: Global,
    number: u64,
    today: Day,
    rows: &[Waiting],
) -> Result<Vec<u8>, AllocError> {
    let run = candidates(alloc, rows)?;
    slip_text(alloc, number, today, &run)
}

#[test]
fn a_slip_goes_along_the_shelves(rt: HostRuntime) -> Result<(), Fail> {
    let today = day(&rt, TODAY);
    let cases: [(u64, &[Waiting], &str); 3] = [
        // ticket 1 ordered containers 1, 2 and 3, and a run took two
        (
            1,
            &[
                (1, 1, 1, "Strongroom 2", "Box 1"),
                (2, 2, 1, "Strongroom 1", "Box 2"),
            ],
            "Run 1  2024-03-01\n\
             Strongroom 1         Box 2                 2        2       1\n\
             Strongroom 2         Box 1                 1        1       1\n",
        ),
        // bytes decide the order, characters the columns; nothing is cut, and each entry stays on one line
        (
            12,
            &[
                (40, 8, 1, "Écurie", "Boîte à plans n° 17 bis"),
                (
                    123_456_789,
                    12_345_678,
                    1_000_000,
                    "Zimmer\r\n7\n\rB",
                    "Mäppchen",
                ),
                (7, 9, 2, "A room with a very long name", "b"),
                (5, 10, 2, "A room with a very long name", "B"),
            ],
            "Run 12  2024-03-01\n\
             A room with a very long name B                     5       10       2\n\
             A room with a very long name b                     7        9       2\n\
             Zimmer 7  B          Mäppchen         123456789 12345678 1000000\n\
             Écurie               Boîte à plans n° 17 bis     40        8       1\n",
        ),
        (3, &[], "Run 3  2024-03-01\n"),
    ];
    for (number, rows, wanted) in cases {
        let slip = slip_of(rt.alloc(), number, today, rows)?;
        assert_eq!(rt; slip.as_slice(), wanted.as_bytes(), "run {number}");
    }
    Ok(())
}
