//! Rows that a desk can have, and rows that it cannot have, each for one reason.

use desk_core::consistency::{
    Around, HoldingRow, Numbers, OrderRow, PermitRow, RunLineRow, RunRow, SeatRow,
    are_good_holdings, are_good_orders, are_good_permits, are_good_runs, are_good_seats,
};
use isad_core::limits::{FIRST_DAY, LAST_DAY, MOST_PERMITS};
use std::alloc::{AllocError, Global};
use std::test::Fail;

/// The most permits of one ticket.
const PERMITS: usize = MOST_PERMITS as usize;

/// The first of March 2024.
const TODAY: i64 = 19_783;

/// Three seats, two orders a day, two containers a run; two readers, units 5 and 7, containers 1 to 3.
fn around(alloc: Global) -> Result<Around, AllocError> {
    Ok(Around {
        seats: 3,
        daily: 2,
        run_size: 2,
        day: TODAY,
        readers: 2,
        units: Numbers::sorted(vec![in alloc; 7, 5]?),
        containers: Numbers::sorted(vec![in alloc; 2, 3, 1]?),
    })
}

fn seat(seat: u64, ticket: u64) -> SeatRow {
    SeatRow { seat, ticket }
}

fn judge_seats(alloc: Global, rows: &[SeatRow]) -> Result<bool, AllocError> {
    let around = around(alloc)?;
    Ok(are_good_seats(&around, rows))
}

#[test]
fn seats_are_judged(rt: HostRuntime) -> Result<(), Fail> {
    let cases = [
        ([seat(1, 2), seat(3, 1)], true),
        ([seat(0, 2), seat(3, 1)], false),
        ([seat(1, 2), seat(4, 1)], false),
        ([seat(1, 2), seat(3, 3)], false),
        ([seat(1, 0), seat(3, 1)], false),
    ];
    for (rows, wanted) in cases {
        assert_eq!(rt; judge_seats(rt.alloc(), &rows)?, wanted);
    }
    Ok(())
}

fn permit(ticket: u64, unit: u64, until: i64) -> PermitRow {
    PermitRow {
        ticket,
        unit,
        until,
    }
}

/// Judges the permit, repeated `times` times.
fn judge_permits(alloc: Global, row: PermitRow, times: usize) -> Result<bool, AllocError> {
    let around = around(alloc)?;
    let rows = vec![in alloc; row; times]?;
    are_good_permits(alloc, &around, &rows)
}

#[test]
fn permits_are_judged(rt: HostRuntime) -> Result<(), Fail> {
    let cases = [
        (permit(1, 5, TODAY), 1, true),
        (permit(2, 7, FIRST_DAY), 1, true),
        (permit(3, 5, TODAY), 1, false),
        (permit(1, 6, TODAY), 1, false),
        (permit(1, 5, FIRST_DAY - 1), 1, false),
        (permit(1, 5, LAST_DAY + 1), 1, false),
        (permit(1, 5, TODAY), PERMITS, true),
        (permit(1, 5, TODAY), PERMITS + 1, false),
    ];
    for (row, times, wanted) in cases {
        assert_eq!(rt; judge_permits(rt.alloc(), row, times)?, wanted);
    }
    Ok(())
}

/// An order with its ticket, container, day and state.
fn order(id: u64, ticket: u64, container: u64, day: i64, state: u64) -> OrderRow {
    OrderRow {
        id,
        ticket,
        container,
        day,
        state,
    }
}

const DONE: OrderRow = OrderRow {
    id: 1,
    ticket: 1,
    container: 1,
    day: TODAY,
    state: 3,
};

const OUT: OrderRow = OrderRow {
    id: 2,
    ticket: 1,
    container: 1,
    day: TODAY,
    state: 2,
};

fn judge_orders(alloc: Global, rows: &[OrderRow]) -> Result<bool, AllocError> {
    let around = around(alloc)?;
    are_good_orders(alloc, &around, rows)
}

#[test]
fn orders_are_judged(rt: HostRuntime) -> Result<(), Fail> {
    let cases = [
        ([DONE, OUT, order(3, 2, 1, TODAY, 1)], true),
        ([DONE, OUT, order(3, 1, 2, TODAY - 1, 4)], true),
        // a number that is skipped; no such ticket, container, state or day; a future day
        ([DONE, OUT, order(4, 2, 1, TODAY, 1)], false),
        ([DONE, OUT, order(3, 3, 1, TODAY, 1)], false),
        ([DONE, OUT, order(3, 2, 4, TODAY, 1)], false),
        ([DONE, OUT, order(3, 2, 1, TODAY, 0)], false),
        ([DONE, OUT, order(3, 2, 1, TODAY, 5)], false),
        ([DONE, OUT, order(3, 2, 1, -25_568, 1)], false),
        ([DONE, OUT, order(3, 2, 1, TODAY + 1, 1)], false),
        // a third order of a day; a second one for what is out
        ([DONE, OUT, order(3, 1, 2, TODAY, 4)], false),
        ([DONE, OUT, order(3, 1, 1, TODAY - 1, 1)], false),
    ];
    for (rows, wanted) in cases {
        assert_eq!(rt; judge_orders(rt.alloc(), &rows)?, wanted);
    }
    Ok(())
}

fn holding(container: u64, place: u64, held_by: Option<u64>) -> HoldingRow {
    HoldingRow {
        container,
        place,
        held_by,
    }
}

fn judge_holdings(alloc: Global, rows: &[HoldingRow]) -> Result<bool, AllocError> {
    let around = around(alloc)?;
    are_good_holdings(alloc, &around, &[DONE, OUT], rows)
}

#[test]
fn holdings_are_judged(rt: HostRuntime) -> Result<(), Fail> {
    let cases = [
        ([holding(1, 2, Some(2)), holding(3, 1, None)], true),
        // no such container or place; at the desk with an order, or out without one
        ([holding(1, 2, Some(2)), holding(4, 1, None)], false),
        ([holding(1, 2, Some(2)), holding(3, 3, None)], false),
        ([holding(1, 2, Some(2)), holding(3, 1, Some(2))], false),
        ([holding(1, 2, Some(2)), holding(3, 2, None)], false),
        // out with an order that is done, with another container's order, with no order; an order that is out without
        // its container
        ([holding(1, 2, Some(1)), holding(3, 1, None)], false),
        ([holding(1, 2, Some(2)), holding(3, 2, Some(2))], false),
        ([holding(1, 2, Some(2)), holding(3, 2, Some(0))], false),
        ([holding(1, 1, None), holding(3, 1, None)], false),
    ];
    for (rows, wanted) in cases {
        assert_eq!(rt; judge_holdings(rt.alloc(), &rows)?, wanted);
    }
    Ok(())
}

fn run(id: u64, day: i64) -> RunRow {
    RunRow { id, day }
}

fn line(run: u64, container: u64, order_no: u64, ticket: u64) -> RunLineRow {
    RunLineRow {
        run,
        container,
        order_no,
        ticket,
    }
}

fn judge_runs(alloc: Global, runs: &[RunRow], lines: &[RunLineRow]) -> Result<bool, AllocError> {
    let around = around(alloc)?;
    are_good_runs(alloc, &around, &[DONE, OUT], runs, lines)
}

#[test]
fn runs_are_judged(rt: HostRuntime) -> Result<(), Fail> {
    let runs = [run(1, TODAY - 1), run(2, TODAY)];
    let first = line(1, 1, 1, 1);
    let second = line(2, 1, 2, 1);
    let cases = [
        (runs, [first, second, second], true),
        // a number that is skipped; a future day; no line, or three; no such run, order, container, ticket
        (
            [run(1, TODAY), run(3, TODAY)],
            [first, second, second],
            false,
        ),
        (
            [run(1, TODAY), run(2, TODAY + 1)],
            [first, second, second],
            false,
        ),
        (runs, [first, first, first], false),
        (runs, [first, second, line(3, 1, 2, 1)], false),
        (runs, [first, second, line(2, 1, 3, 1)], false),
        (runs, [first, second, line(2, 2, 2, 1)], false),
        (runs, [first, second, line(2, 1, 2, 2)], false),
    ];
    for (runs, lines, wanted) in cases {
        assert_eq!(rt; judge_runs(rt.alloc(), &runs, &lines)?, wanted);
    }
    Ok(())
}
