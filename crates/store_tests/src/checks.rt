//! The check of the desk's tables. Rows that no call writes are found, with their cause.

use crate::desk::{add_order, day_after, next_turn};
use crate::reading_room::furnish;
use crate::tests::new_office;
use catalogue_store::{LinkPlaces, StoreFault};
use desk_core::Limits;
use desk_store::{ContainerOrder, OrderState, end_order, grant, record_run, set_seat};
use integrity_checks::load_check_desk;
use isad_core::Number;
use office_tables::{Tables, change};
use sqlite::types::ValueRef;
use sqlite::types::ValueRef::{Int, Null, Text};
use sqlite::{Alter, Connection};
use std::alloc::Global;
use std::process::Abort;
use std::test::Fail;

/// Ann has a seat and may see unit 1. She had container 1, which the first run brought, and returned it.
fn serve_reader<S: Alter>(
    alloc: Global,
    tables: &mut Tables<LinkPlaces, S>,
) -> Result<(), StoreFault> {
    let mut text = String::new(alloc);
    furnish(alloc, tables, &mut text)?;
    grant(tables, Number::from(1), Number::from(1), day_after(0)?)?;
    set_seat(tables, 1, Some(Number::from(1)))?;
    add_order(tables, 1, 1, 1, 0)?;
    let taken = [ContainerOrder {
        container: Number::from(1),
        order: Number::from(1),
        ticket: Number::from(1),
    }];
    record_run(tables, day_after(0)?, &taken)?;
    end_order(tables, Number::from(1), OrderState::Done)
}

/// What a statement writes.
#[derive(Clone, Copy)]
enum Row {
    /// A ticket, a name and a last day.
    Reader,
    /// A seat and a ticket.
    Seat,
    /// A ticket, a unit and a last day.
    Permit,
    /// An order's number, a ticket, a container and a day; it waits.
    Order,
    /// A state and the order that takes it.
    State,
    /// A container, a place and an order.
    Holding,
    /// A run's number and a day.
    Run,
    /// A run, a container, an order and a ticket.
    Line,
}

/// A row, whatever its cells are.
type Write = (Row, &'static [ValueRef<'static>]);

/// Writes a row with one of the desk's statements.
fn put<S: Alter>(
    tables: &mut Tables<LinkPlaces, S>,
    row: Row,
    cells: &[ValueRef<'_>],
) -> Result<(), StoreFault> {
    match row {
        Row::Reader => change(tables, PUT_READER, cells),
        Row::Seat => change(tables, PUT_SEAT, cells),
        Row::Permit => change(tables, PUT_PERMIT, cells),
        Row::Order => change(tables, PUT_ORDER, cells),
        Row::State => change(tables, SET_STATE, cells),
        Row::Holding => change(tables, PUT_HOLDING, cells),
        Row::Run => change(tables, PUT_RUN, cells),
        Row::Line => change(tables, PUT_LINE, cells),
    }
}

const PUT_READER: &str = "INSERT INTO reader (ticket, name, until) VALUES (?1, ?2, ?3)";

const PUT_SEAT: &str = "INSERT INTO seat (seat, ticket) VALUES (?1, ?2)";

const PUT_PERMIT: &str = "INSERT INTO permit (ticket, unit, until) VALUES (?1, ?2, ?3)";

const PUT_ORDER: &str =
    "INSERT INTO orders (id, ticket, container, day, state) VALUES (?1, ?2, ?3, ?4, 1)";

const SET_STATE: &str = "UPDATE orders SET state = ?1 WHERE id = ?2";

const PUT_HOLDING: &str = "INSERT INTO holding (container, place, held_by) VALUES (?1, ?2, ?3)";

const PUT_RUN: &str = "INSERT INTO run (id, day) VALUES (?1, ?2)";

const PUT_LINE: &str =
    "INSERT INTO run_line (run, container, order_no, ticket) VALUES (?1, ?2, ?3, ?4)";

/// Writes rows, one after the other.
fn put_all<S: Alter>(
    tables: &mut Tables<LinkPlaces, S>,
    writes: &[Write],
) -> Result<(), StoreFault> {
    for write in writes {
        let (row, cells) = *write;
        put(tables, row, cells)?;
    }
    Ok(())
}

/// Ann is served, and then these rows are written.
fn write_desk<S: Alter>(
    alloc: Global,
    tables: &mut Tables<LinkPlaces, S>,
    writes: &[Write],
) -> Result<(), StoreFault> {
    serve_reader(alloc, tables)?;
    put_all(tables, writes)
}

/// A sound desk in a new office, with these rows added. It is committed, and the next transaction has begun.
fn desk_with<S: Alter + Drop>(
    alloc: Global,
    conn: Connection<S>,
    writes: &[Write],
) -> Result<Tables<LinkPlaces, S>, StoreFault> {
    let mut tables = new_office::<LinkPlaces, S>(alloc, conn)?;
    let outcome = write_desk(alloc, &mut tables, writes);
    let mut conn = tables.into_connection();
    outcome?;
    next_turn(&mut conn)?;
    Ok(Tables::inside(conn))
}

/// The cause that the check finds in a desk, or 0.
fn cause_in<S: Alter>(alloc: Global, tables: &mut Tables<LinkPlaces, S>) -> Result<u8, StoreFault> {
    let limits = Limits {
        seats: 2,
        daily: 3,
        hands: 1,
        run: 2,
    };
    let defect = load_check_desk(alloc, tables, &limits, day_after(0)?)?;
    Ok(match defect {
        Some(defect) => defect.cause(),
        None => 0,
    })
}

/// The causes of these desks, each in a store of its own.
fn causes(alloc: Global, desks: &[&'static [Write]]) -> Result<String, Fail> {
    let mut text = String::new(alloc);
    for &writes in desks {
        let mut tables = desk_with(alloc, Connection::open_in_memory(alloc)?, writes)?;
        let cause = cause_in(alloc, &mut tables);
        let _ = tables.into_connection();
        let cause = cause?;
        write!(text, "{cause}")?;
    }
    Ok(text)
}

/// The first of March 2024, the day of the office.
const TODAY: ValueRef<'static> = Int(19783);

const TOMORROW: ValueRef<'static> = Int(19784);

/// A day before the first of the calendar.
const NO_DAY: ValueRef<'static> = Int(-25568);

const ANN: ValueRef<'static> = Int(1);

const BOB: Write = (Row::Reader, &[Int(2), Text(b"Bob"), TODAY]);

/// Order 2, Ann's for container 2.
const SECOND: Write = (Row::Order, &[Int(2), ANN, Int(2), TODAY]);

const SECOND_IS_OUT: Write = (Row::State, &[Int(2), Int(2)]);

const SECOND_IS_DONE: Write = (Row::State, &[Int(3), Int(2)]);

const THIRD: Write = (Row::Order, &[Int(3), ANN, Int(3), TODAY]);

const RUN: Write = (Row::Run, &[Int(2), TODAY]);

/// Order 1 of the second run.
const LINE: Write = (Row::Line, &[Int(2), Int(1), Int(1), ANN]);

#[test]
fn sound_desks_have_no_defect(rt: HostRuntime) -> Result<(), Fail> {
    let desks: [&'static [Write]; 7] = [
        &[],
        &[BOB, (Row::Seat, &[Int(2), Int(2)])],
        &[SECOND, THIRD],
        &[
            SECOND,
            SECOND_IS_OUT,
            (Row::Holding, &[Int(2), Int(2), Int(2)]),
        ],
        &[(Row::Holding, &[Int(3), Int(1), Null])],
        &[RUN, LINE],
        &[SECOND, (Row::Line, &[Int(1), Int(2), Int(2), ANN])],
    ];
    let told = causes(rt.alloc(), &desks)?;
    assert_eq!(&rt; told.as_str(), "0000000");
    Ok(())
}

/// A ticket number that is skipped or invalid; names and days that no reader can have; seats and permits of unknown
/// tickets, and a seat too many.
#[test]
fn defective_readers_are_reported(rt: HostRuntime) -> Result<(), Fail> {
    let desks: [&'static [Write]; 15] = [
        &[(Row::Reader, &[Int(3), Text(b"Bob"), TODAY])],
        &[(Row::Reader, &[Int(0), Text(b"Bob"), TODAY])],
        &[(Row::Reader, &[Int(-1), Text(b"Bob"), TODAY])],
        &[(Row::Reader, &[Int(2), Text(b""), TODAY])],
        &[(Row::Reader, &[Int(2), Text(b" "), TODAY])],
        &[(Row::Reader, &[Int(2), Text(b"B\nob"), TODAY])],
        &[(Row::Reader, &[Int(2), Text(b"B\xF6b"), TODAY])],
        &[(Row::Reader, &[Int(2), Text(b"Bob"), NO_DAY])],
        &[(Row::Reader, &[Int(2), Text(b"Bob"), Int(2932897)])],
        &[BOB, (Row::Seat, &[Int(3), Int(2)])],
        &[BOB, (Row::Seat, &[Int(-2), Int(2)])],
        &[EMPTY],
        &[(Row::Permit, &[Int(2), Int(1), TODAY])],
        &[(Row::Permit, &[Int(-1), Int(1), TODAY])],
        &[(Row::Permit, &[ANN, Int(2), NO_DAY])],
    ];
    let told = causes(rt.alloc(), &desks)?;
    assert_eq!(&rt; told.as_str(), "666666666666666");
    Ok(())
}

/// An order number that is skipped or invalid; orders of an unknown ticket, for an unknown container, in an invalid
/// state or on an invalid day; the fourth order of a day, and a second order of a ticket that waits for the same
/// container.
#[test]
fn defective_orders_are_reported(rt: HostRuntime) -> Result<(), Fail> {
    let desks: [&'static [Write]; 12] = [
        &[THIRD],
        &[(Row::Order, &[Int(0), ANN, Int(2), TODAY])],
        &[(Row::Order, &[Int(-2), ANN, Int(2), TODAY])],
        &[(Row::Order, &[Int(2), Int(2), Int(2), TODAY])],
        &[(Row::Order, &[Int(2), ANN, Int(4), TODAY])],
        &[SECOND, (Row::State, &[Int(7), Int(2)])],
        &[SECOND, (Row::State, &[Int(0), Int(2)])],
        &[SECOND, (Row::State, &[Int(-1), Int(2)])],
        &[(Row::Order, &[Int(2), ANN, Int(2), TOMORROW])],
        &[(Row::Order, &[Int(2), ANN, Int(2), NO_DAY])],
        &[SECOND, THIRD, (Row::Order, &[Int(4), ANN, Int(1), TODAY])],
        &[SECOND, (Row::Order, &[Int(3), ANN, Int(2), TODAY])],
    ];
    let told = causes(rt.alloc(), &desks)?;
    assert_eq!(&rt; told.as_str(), "777777777777");
    Ok(())
}

/// An unknown container; an invalid place; a container at the desk with an order, or out without an order that is out;
/// an order that is out without its container.
#[test]
fn defective_holdings_are_reported(rt: HostRuntime) -> Result<(), Fail> {
    let desks: [&'static [Write]; 11] = [
        &[(Row::Holding, &[Int(4), Int(1), Null])],
        &[(Row::Holding, &[Int(-1), Int(1), Null])],
        &[(Row::Holding, &[Int(1), Int(3), Null])],
        &[(Row::Holding, &[Int(1), Int(0), Null])],
        &[(Row::Holding, &[Int(1), Int(1), Int(1)])],
        &[(Row::Holding, &[Int(1), Int(2), Null])],
        &[(Row::Holding, &[Int(1), Int(2), Int(1)])],
        &[(Row::Holding, &[Int(1), Int(2), Int(9)])],
        &[(Row::Holding, &[Int(1), Int(2), Int(-1)])],
        &[SECOND, SECOND_IS_OUT],
        &[
            SECOND,
            SECOND_IS_OUT,
            (Row::Holding, &[Int(3), Int(2), Int(2)]),
        ],
    ];
    let told = causes(rt.alloc(), &desks)?;
    assert_eq!(&rt; told.as_str(), "88888888888");
    Ok(())
}

/// A run number that is skipped or invalid; a run without lines, with too many, or on an invalid day; a line without
/// its run, or one that does not match an order of that container and ticket.
#[test]
fn defective_runs_are_reported(rt: HostRuntime) -> Result<(), Fail> {
    let desks: [&'static [Write]; 11] = [
        &[
            (Row::Run, &[Int(3), TODAY]),
            (Row::Line, &[Int(3), Int(1), Int(1), ANN]),
        ],
        &[
            (Row::Run, &[Int(0), TODAY]),
            (Row::Line, &[Int(0), Int(1), Int(1), ANN]),
        ],
        &[RUN],
        &[
            SECOND,
            THIRD,
            (Row::Line, &[Int(1), Int(2), Int(2), ANN]),
            (Row::Line, &[Int(1), Int(3), Int(3), ANN]),
        ],
        &[(Row::Run, &[Int(2), TOMORROW]), LINE],
        &[(Row::Run, &[Int(2), NO_DAY]), LINE],
        &[LINE],
        &[(Row::Line, &[Int(-1), Int(1), Int(1), ANN])],
        &[RUN, (Row::Line, &[Int(2), Int(2), Int(1), ANN])],
        &[RUN, (Row::Line, &[Int(2), Int(1), Int(9), ANN])],
        &[RUN, (Row::Line, &[Int(2), Int(1), Int(1), Int(2)])],
    ];
    let told = causes(rt.alloc(), &desks)?;
    assert_eq!(&rt; told.as_str(), "99999999999");
    Ok(())
}

/// A container in an invalid place.
const LOST: Write = (Row::Holding, &[Int(1), Int(3), Null]);

/// A seat of an unknown ticket.
const EMPTY: Write = (Row::Seat, &[Int(2), Int(2)]);

/// Of several causes the first is found, whichever was written first.
#[test]
fn the_first_defect_is_reported(rt: HostRuntime) -> Result<(), Fail> {
    let desks: [&'static [Write]; 5] = [
        &[LINE, LOST, THIRD, EMPTY],
        &[EMPTY, THIRD, LOST, LINE],
        &[LINE, LOST, THIRD],
        &[THIRD, LINE],
        &[LINE, LOST],
    ];
    let told = causes(rt.alloc(), &desks)?;
    assert_eq!(&rt; told.as_str(), "66778");
    Ok(())
}
