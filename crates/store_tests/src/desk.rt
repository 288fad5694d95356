//! The desk's tables, over a store in memory: readers, seats, orders, places and permits. The desk's calls do not read
//! the places of units, so these tests, and those of its days and its check, run over only one way to store them:
//! links.

ghost use Rattle.std.specs.Prelude.{OnOk};
ghost use Rattle.sqlite.specs.Held.{state};
ghost use Rattle.office_tables.specs.Versions.{First};
ghost use Rattle.office_tables.specs.Step.{AreTables, InTransaction};

use crate::tests::{Query, make_office, show_rows, two_units};
use catalogue_store::{LinkPlaces, StoreFault, begin, commit};
use desk_core::Place;
use desk_store::{
    ContainerOrder, OrderState, add_reader, append_order, at_desk, end_order, first_orders, grant,
    issued, on_shelf, open_day, order, permits, queue, reader, record_run, renew, revoke, run,
    seats, set_place, set_seat, ticket_holder,
};
use isad_core::{Day, Number, Text};
use office_tables::{Tables, roll_back};
use sqlite::{Alter, Connection};
use std::alloc::Global;
use std::process::Abort;
use std::test::Fail;

/// The day that is `days` days after the first of March 2024.
pub(crate) fn day_after(days: u8) -> Result<Day, StoreFault> {
    match Day::from_number(19783 + i32::from(days)) {
        Some(day) => Ok(day),
        None => Err(StoreFault::Schema),
    }
}

/// Registers a reader with a ticket for the first day only, and writes the ticket.
pub(crate) fn register<S: Alter>(
    alloc: Global,
    tables: &mut Tables<LinkPlaces, S>,
    name: &str,
    text: &mut String,
) -> Result<(), StoreFault> {
    let name = Text::new(alloc, name)?;
    let ticket = add_reader(tables, &name, day_after(0)?)?.map_or(0, |ticket| ticket.get());
    write!(text, "{ticket}\n")?;
    Ok(())
}

/// Places an order, `days` days after the first of March 2024.
pub(crate) fn add_order<S: Alter>(
    tables: &mut Tables<LinkPlaces, S>,
    order: u32,
    ticket: u32,
    container: u32,
    days: u8,
) -> Result<(), StoreFault> {
    append_order(
        tables,
        Number::from(order),
        Number::from(ticket),
        Number::from(container),
        day_after(days)?,
    )
}

/// Ann's ticket 1 is renewed. Bob takes a seat and leaves it; Ann takes the second seat.
fn take_seats<S: Alter>(
    alloc: Global,
    tables: &mut Tables<LinkPlaces, S>,
    text: &mut String,
) -> Result<(), StoreFault> {
    register(alloc, tables, "Ann", text)?;
    register(alloc, tables, "Bob", text)?;
    renew(tables, Number::from(1), day_after(9)?)?;
    set_seat(tables, 1, Some(Number::from(2)))?;
    set_seat(tables, 2, Some(Number::from(1)))?;
    set_seat(tables, 1, None)?;
    for taken in &seats(alloc, tables)? {
        let (seat, ticket) = (taken.seat, taken.ticket.get());
        write!(text, "{seat} {ticket}\n")?;
    }
    Ok(())
}

/// Ann orders containers 1 and 2, and has the first.
fn place_orders<S: Alter>(
    alloc: Global,
    tables: &mut Tables<LinkPlaces, S>,
    text: &mut String,
) -> Result<(), StoreFault> {
    register(alloc, tables, "Ann", text)?;
    add_order(tables, 1, 1, 1, 0)?;
    add_order(tables, 2, 1, 2, 1)?;
    end_order(tables, Number::from(1), OrderState::Out)?;
    set_place(tables, Number::from(2), Place::Desk)?;
    set_place(tables, Number::from(1), Place::Out(Number::from(1)))
}

/// Ann's card on the second day, and that nobody has ticket 9.
fn read_card<S: Alter>(
    alloc: Global,
    tables: &mut Tables<LinkPlaces, S>,
    text: &mut String,
) -> Result<(), StoreFault> {
    place_orders(alloc, tables, text)?;
    let day = day_after(1)?;
    if let Some(card) = &reader(alloc, tables, Number::from(1), day)? {
        let (held, placed, orders) = (card.reader.held, card.placed, card.orders);
        write!(text, "{held} {placed} {orders}\n")?;
        for live in card.live.as_slice() {
            let (order, container) = (live.order.get(), live.container.get());
            let is_out = live.is_out;
            write!(text, "{order} {container} {is_out}\n")?;
        }
    }
    let is_unknown = reader(alloc, tables, Number::from(9), day)?.is_none();
    write!(text, "{is_unknown}\n")?;
    Ok(())
}

/// Containers, each with an order for it and that order's ticket.
fn show_orders(orders: &[ContainerOrder], text: &mut String) -> Result<(), StoreFault> {
    for order in orders {
        let (container, number) = (order.container.get(), order.order.get());
        let ticket = order.ticket.get();
        write!(text, "{container} {number} {ticket}\n")?;
    }
    Ok(())
}

/// The containers that a run may take, each with its first order and that order's ticket.
pub(crate) fn show_candidates<S: Alter>(
    alloc: Global,
    tables: &mut Tables<LinkPlaces, S>,
    text: &mut String,
) -> Result<(), StoreFault> {
    let firsts = first_orders(alloc, tables)?;
    show_orders(&on_shelf(alloc, tables, &firsts)?, text)
}

/// The seat and the number of containers of the reader who has a ticket.
fn show_holder<S: Alter>(
    alloc: Global,
    tables: &mut Tables<LinkPlaces, S>,
    ticket: Number,
    text: &mut String,
) -> Result<(), StoreFault> {
    let Some(holder) = ticket_holder(alloc, tables, ticket)? else {
        text.push_str("nobody\n")?;
        return Ok(());
    };
    let (seat, held) = (holder.seat.unwrap_or(0), holder.held);
    write!(text, "{seat} {held}\n")?;
    Ok(())
}

/// Ann has container 1 and no seat, Bob has seat 2 and no container, and nobody has ticket 3.
fn hold<S: Alter>(
    alloc: Global,
    tables: &mut Tables<LinkPlaces, S>,
    text: &mut String,
) -> Result<(), StoreFault> {
    place_orders(alloc, tables, text)?;
    register(alloc, tables, "Bob", text)?;
    set_seat(tables, 2, Some(Number::from(2)))?;
    show_holder(alloc, tables, Number::from(1), text)?;
    show_holder(alloc, tables, Number::from(2), text)?;
    show_holder(alloc, tables, Number::from(3), text)
}

/// Ann returns container 1, and order 2 is cancelled: whether order 1 is done, and order 3 unknown.
fn end_orders<S: Alter>(
    alloc: Global,
    tables: &mut Tables<LinkPlaces, S>,
    text: &mut String,
) -> Result<(), StoreFault> {
    place_orders(alloc, tables, text)?;
    end_order(tables, Number::from(1), OrderState::Done)?;
    set_place(tables, Number::from(1), Place::Shelf)?;
    end_order(tables, Number::from(2), OrderState::Cancelled)?;
    let is_done = order(alloc, tables, Number::from(1))?.is_some_and(|placed| placed.state
        == OrderState::Done);
    let is_unknown = order(alloc, tables, Number::from(3))?.is_none();
    write!(text, "{is_done} {is_unknown}\n")?;
    Ok(())
}

/// Records a run that brought container 2 for order 2, and lists what is out.
fn bring<S: Alter>(
    alloc: Global,
    tables: &mut Tables<LinkPlaces, S>,
    text: &mut String,
) -> Result<(), StoreFault> {
    place_orders(alloc, tables, text)?;
    let taken = [ContainerOrder {
        container: Number::from(2),
        order: Number::from(2),
        ticket: Number::from(1),
    }];
    let run = record_run(tables, day_after(1)?, &taken)?.map_or(0, |run| run.get());
    write!(text, "{run}\n")?;
    show_orders(&issued(alloc, tables)?, text)
}

/// Ann has permits for units 1 and 2; the second is extended and the first is revoked.
fn grant_permits<S: Alter>(
    alloc: Global,
    tables: &mut Tables<LinkPlaces, S>,
    text: &mut String,
) -> Result<(), StoreFault> {
    two_units(alloc, tables)?;
    grant(tables, Number::from(1), Number::from(1), day_after(0)?)?;
    grant(tables, Number::from(1), Number::from(2), day_after(0)?)?;
    grant(tables, Number::from(1), Number::from(2), day_after(9)?)?;
    revoke(tables, Number::from(1), Number::from(1))?;
    for permit in &permits(alloc, tables, Number::from(1))? {
        let (unit, until) = (permit.unit.get(), permit.until.number());
        write!(text, "{unit} {until}\n")?;
    }
    Ok(())
}

/// Orders 1 to 4 wait for containers 2, 1, 2 and 3, and container 3 is at the desk: what a run may take, what is at the
/// desk, and that container 1 and run 1 are unknown.
fn pick_run<S: Alter>(
    alloc: Global,
    tables: &mut Tables<LinkPlaces, S>,
    text: &mut String,
) -> Result<(), StoreFault> {
    add_order(tables, 1, 7, 2, 0)?;
    add_order(tables, 2, 7, 1, 0)?;
    add_order(tables, 3, 8, 2, 0)?;
    add_order(tables, 4, 8, 3, 0)?;
    set_place(tables, Number::from(3), Place::Desk)?;
    show_candidates(alloc, tables, text)?;
    for &(container, awaited) in &at_desk(alloc, tables)? {
        write!(text, "{} {awaited}\n", container.get())?;
    }
    let is_unknown = queue(alloc, tables, Number::from(1))?.is_none();
    let is_unmade = run(alloc, tables, Number::from(1))?.is_none();
    write!(text, "{is_unknown} {is_unmade}\n")?;
    Ok(())
}

/// Bob takes a seat, and the next day begins.
fn open_next_day<S: Alter>(
    alloc: Global,
    tables: &mut Tables<LinkPlaces, S>,
    text: &mut String,
) -> Result<(), StoreFault> {
    register(alloc, tables, "Bob", text)?;
    set_seat(tables, 2, Some(Number::from(1)))?;
    open_day(tables, day_after(1)?)
}

/// What is done in a new office.
#[derive(Clone, Copy)]
enum Act {
    Sit,
    Card,
    Hold,
    End,
    Run,
    Permit,
    Pick,
    Open,
}

/// Does it, and writes the results of the calls.
fn carry_out<S: Alter>(
    alloc: Global,
    tables: &mut Tables<LinkPlaces, S>,
    done: Act,
    text: &mut String,
) -> Result<(), StoreFault> {
    match done {
        Act::Sit => take_seats(alloc, tables, text),
        Act::Card => read_card(alloc, tables, text),
        Act::Hold => hold(alloc, tables, text),
        Act::End => end_orders(alloc, tables, text),
        Act::Run => bring(alloc, tables, text),
        Act::Permit => grant_permits(alloc, tables, text),
        Act::Pick => pick_run(alloc, tables, text),
        Act::Open => open_next_day(alloc, tables, text),
    }
}

/// Commits what was done, and begins another transaction.
pub(crate) fn next_turn<S: Alter>(conn: &mut Connection<S>) -> Result<(), StoreFault>
    requires are { AreTables First (state S.Store conn.old) }
    ensures inside { OnOk result (InTransaction First (state S.Store conn.new)) }
{
    commit(conn)?;
    begin(conn)
}

/// All rows of the desk's tables, and the office's row.
fn show_desk<S: Alter>(alloc: Global, conn: &mut Connection<S>) -> Result<String, Fail> {
    let mut text = String::new(alloc);
    for query in [READERS, SEATS, ORDERS, HOLDINGS, RUNS, LINES, PERMITS, DAY] {
        show_rows(&mut text, conn, query)?;
    }
    Ok(text)
}

/// Rolls back the transaction of calls of which one failed: nothing is left of them in a new office.
fn taken_back<S: Alter>(
    alloc: Global,
    conn: &mut Connection<S>,
    fault: StoreFault,
) -> Result<(), Fail> {
    roll_back(conn);
    let left = show_desk(alloc, conn)?;
    if left.as_str() == " 2 19783 1\n" {
        Err(Fail::from(fault))
    } else {
        Err(Fail::new("something is left"))
    }
}

/// The results of the calls in a new office, and then the rows of these queries.
fn call_results(alloc: Global, done: Act, queries: &[Query]) -> Result<String, Fail> {
    let mut text = String::new(alloc);
    let mut conn = Connection::open_in_memory(alloc)?;
    make_office::<LinkPlaces, _>(alloc, &mut conn)?;
    next_turn(&mut conn)?;
    let mut tables = Tables::<LinkPlaces, _>::inside(conn);
    let outcome = carry_out(alloc, &mut tables, done, &mut text);
    let mut conn = tables.into_connection();
    if let Err(fault) = outcome {
        taken_back(alloc, &mut conn, fault)?;
    }
    for query in queries {
        show_rows(&mut text, &mut conn, *query)?;
    }
    Ok(text)
}

/// What is done, the queries that are then asked, and the expected text.
type Case = (Act, &'static [Query], &'static str);

fn see(rt: &impl Abort, alloc: Global, cases: &[Case]) -> Result<(), Fail> {
    for &(done, queries, wanted) in cases {
        let text = call_results(alloc, done, queries)?;
        assert_eq!(rt; text.as_str(), wanted);
    }
    Ok(())
}

const SEATS: Query = ("SELECT seat, ticket FROM seat ORDER BY seat", 2);

const DAY: Query = ("SELECT seats, day, next_unit FROM office", 3);

const READERS: Query = ("SELECT ticket, until FROM reader ORDER BY ticket", 2);

const ORDERS: Query = (
    "SELECT id, ticket, container, day, state FROM orders ORDER BY id",
    5,
);

const HOLDINGS: Query = (
    "SELECT container, place, held_by FROM holding ORDER BY container",
    3,
);

const RUNS: Query = ("SELECT id, day FROM run ORDER BY id", 2);

const LINES: Query = (
    "SELECT run, container, order_no, ticket FROM run_line ORDER BY run, container",
    4,
);

const PERMITS: Query = (
    "SELECT ticket, unit, until FROM permit ORDER BY ticket, unit",
    3,
);

#[test]
fn the_desk_keeps_its_register(rt: HostRuntime) -> Result<(), Fail> {
    let cases: [Case; 8] = [
        (Act::Sit, &[READERS], "1\n2\n2 1\n 1 19792\n 2 19783\n"),
        (
            Act::Card,
            &[ORDERS, HOLDINGS],
            "1\n1 1 2\n1 1 true\n2 2 false\ntrue\n\
             \u{20}1 1 1 19783 2\n 2 1 2 19784 1\n\
             \u{20}1 2 1\n 2 1 -\n",
        ),
        (Act::Hold, &[SEATS], "1\n2\n0 1\n2 0\nnobody\n 2 2\n"),
        (
            Act::End,
            &[ORDERS, HOLDINGS],
            "1\ntrue true\n 1 1 1 19783 3\n 2 1 2 19784 4\n 2 1 -\n",
        ),
        (
            Act::Run,
            &[RUNS, LINES],
            "1\n1\n1 1 1\n 1 19784\n 1 2 2 1\n",
        ),
        (Act::Permit, &[PERMITS], "2 19792\n 1 2 19792\n"),
        (Act::Pick, &[], "2 1 7\n1 2 7\n3 true\ntrue true\n"),
        (Act::Open, &[SEATS, DAY], "1\n 2 19784 1\n"),
    ];
    see(&rt, rt.alloc(), &cases)
}
