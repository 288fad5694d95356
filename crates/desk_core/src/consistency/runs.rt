//! Runs.
ghost use Rattle.std.specs.Prelude.{◌≡◌, ◌&&◌, IfOk, map, false, length, nat_le};
ghost use Rattle.std.specs.List.{list_all};
ghost use Rattle.isad_core.specs.Limits.{most_runs};
ghost use Rattle.isad_core.specs.Words.{are_numbered_from};
ghost use Rattle.desk_core.specs.DeskCauses.{Around as Held, are_good_runs, orders_are_bad};
ghost use Rattle.desk_core.specs.DeskRows.{Desk};
ghost use Rattle.desk_core.specs.RowRecords.{Surrounds, order_record, run_record, run_line_record};
ghost use Rattle.desk_core.specs.Consistency.{is_fit_line as is_fit_line_of};
ghost use Rattle.desk_core.specs.Consistency.{is_fit_run as is_fit_run_of};

use crate::consistency::context::{Around, is_given};
use crate::consistency::numbers::{are_numbered, nth_order};
use crate::consistency::rows::{OrderRow, RunLineRow, RunRow};
use crate::consistency::tally::Tally;
use isad_core::{is_day, limits};
use std::alloc::{AllocError, Global};

/// The most runs that may ever be made.
const MOST_RUNS: usize = limits::MOST_RUNS as usize;

/// Whether the runs and their lines are those of a desk with these orders. The orders must be good: if they are not,
/// the contract says nothing. The lines may come in any order.
pub fn are_good_runs(
    alloc: Global,
    around: &Around,
    orders: &[OrderRow],
    runs: &[RunRow],
    lines: &[RunLineRow],
) -> Result<bool, AllocError>
    ensures { IfOk result (λ good. (a : Held) (d : Desk) → Surrounds around.now a d
        → d.orders ≡ map order_record orders.now → d.runs ≡ map run_record runs.now
        → d.run_lines ≡ map run_line_record lines.now
        → orders_are_bad a d ≡ false → good ≡ are_good_runs a d) }
{
    let numbers = numbers_of(alloc, runs)?;
    if !are_plain(orders, &numbers, runs, lines) {
        return Ok(false);
    }
    let of_lines = runs_of(alloc, lines)?;
    let tally = Tally::of(alloc, runs.len() as u64, &of_lines)?;
    Ok(are_fit(around, &tally, runs))
}

/// Whether these numbers count from 1, the runs are not too many, and each line is of a run and of an order.
fn are_plain(orders: &[OrderRow], numbers: &[u64], runs: &[RunRow], lines: &[RunLineRow]) -> bool
    ensures { result ≡ (are_numbered_from (λ n. n) 1 numbers.now
        && (nat_le (length runs.now) most_runs
        && list_all (is_fit_line_of orders.now (length runs.now)) lines.now)) }
{
    are_numbered(numbers)
        && runs.len() <= MOST_RUNS
        && lines_are_fit(orders, runs.len() as u64, lines)
}

fn numbers_of(alloc: Global, runs: &[RunRow]) -> Result<Vec<u64>, AllocError>
    ensures { IfOk result (λ numbers. numbers.items ≡ map (λ row. row.id) runs.now) }
{
    runs.iter().map(|row| row.id).collect(alloc)
}

/// The run of each line.
fn runs_of(alloc: Global, lines: &[RunLineRow]) -> Result<Vec<u64>, AllocError>
    ensures { IfOk result (λ runs. runs.items ≡ map (λ line. line.run) lines.now) }
{
    lines.iter().map(|line| line.run).collect(alloc)
}

/// Whether each run is of a day that is not after today, with at least one line and no more than it may have.
fn are_fit(around: &Around, lines: &Tally, runs: &[RunRow]) -> bool
    ensures { result ≡ list_all (is_fit_run_of around.now lines.now) runs.now }
{
    runs.iter().all(|row| is_fit_run(around, lines, row))
}

fn is_fit_run(around: &Around, lines: &Tally, row: &RunRow) -> bool
    ensures { result ≡ is_fit_run_of around.now lines.now row.now }
{
    is_day(row.day) && row.day <= around.day && is_given(lines.times(row.id), around.run_size)
}

/// Whether each line is of a run, and has the container and the ticket of its order.
fn lines_are_fit(orders: &[OrderRow], runs: u64, lines: &[RunLineRow]) -> bool
    ensures { result ≡ list_all (is_fit_line_of orders.now runs) lines.now }
{
    lines.iter().all(|line| is_fit_line(orders, runs, line))
}

fn is_fit_line(orders: &[OrderRow], runs: u64, line: &RunLineRow) -> bool
    ensures { result ≡ is_fit_line_of orders.now runs line.now }
{
    if !is_given(line.run, runs) {
        return false;
    }
    match nth_order(orders, line.order_no) {
        None => false,
        Some(order) => order.container == line.container && order.ticket == line.ticket,
    }
}
