//! The rows of each table of the desk except the readers', and the numbers of units and containers.

ghost use Rattle.office_tables.specs.DeskCells as cells;
ghost use Rattle.office_tables.specs.Schema as schema;
ghost use Rattle.row_decoding.specs.Examinations.{Examines};
ghost use Rattle.row_decoding.specs.Readings.{IsTable, by_rowid, in_any_order, read_number};
ghost use Rattle.desk_core.specs.RowRecords.{seat_record, order_record, holding_record, run_record, run_line_record};
ghost use Rattle.desk_core.specs.RowRecords.{permit_record};

use crate::cells::{cell, number_in, number_or_null_in, whole_in};
use crate::decoded_rows::{FromCells, Gathered, read_rows};
use desk_core::consistency::{HoldingRow, OrderRow, PermitRow, RunLineRow, RunRow, SeatRow};
use office_tables::{StoreFault, Tables, Versioned};
use sqlite::{Alter, Row};
use std::alloc::Global;

impl FromCells for u64 {
    ghost use Rattle.std.specs.Prelude.{ℕ};
    ghost use Rattle.row_decoding.specs.Readings.{read_number};

    ghost Told = { ℕ };

    ghost told = { λ n. n };

    ghost says = { read_number };

    fn read(row: &Row) -> Option<u64> {
        number_in(cell(row, 0))
    }
}

impl FromCells for SeatRow {
    ghost use Rattle.desk_core.specs.DeskRows.{SeatRow as ToldSeatRow};
    ghost use Rattle.row_decoding.specs.Readings.{seat_in_answer};
    ghost use Rattle.desk_core.specs.RowRecords.{seat_record};

    ghost Told = { ToldSeatRow };

    ghost told = { seat_record };

    ghost says = { seat_in_answer };

    fn read(row: &Row) -> Option<SeatRow> {
        let seat = number_in(cell(row, 0))?;
        let ticket = number_in(cell(row, 1))?;
        Some(SeatRow { seat, ticket })
    }
}

impl FromCells for PermitRow {
    ghost use Rattle.desk_core.specs.DeskRows.{PermitRow as ToldPermitRow};
    ghost use Rattle.row_decoding.specs.Readings.{permit_in_answer};
    ghost use Rattle.desk_core.specs.RowRecords.{permit_record};

    ghost Told = { ToldPermitRow };

    ghost told = { permit_record };

    ghost says = { permit_in_answer };

    fn read(row: &Row) -> Option<PermitRow> {
        let ticket = number_in(cell(row, 0))?;
        let unit = number_in(cell(row, 1))?;
        let until = whole_in(cell(row, 2))?;
        Some(PermitRow {
            ticket,
            unit,
            until,
        })
    }
}

impl FromCells for OrderRow {
    ghost use Rattle.desk_core.specs.DeskRows.{OrderRow as ToldOrderRow};
    ghost use Rattle.row_decoding.specs.Readings.{order_in_answer};
    ghost use Rattle.desk_core.specs.RowRecords.{order_record};

    ghost Told = { ToldOrderRow };

    ghost told = { order_record };

    ghost says = { order_in_answer };

    fn read(row: &Row) -> Option<OrderRow> {
        let id = number_in(cell(row, 0))?;
        let ticket = number_in(cell(row, 1))?;
        let container = number_in(cell(row, 2))?;
        let day = whole_in(cell(row, 3))?;
        let state = number_in(cell(row, 4))?;
        Some(OrderRow {
            id,
            ticket,
            container,
            day,
            state,
        })
    }
}

impl FromCells for HoldingRow {
    ghost use Rattle.desk_core.specs.DeskRows.{HoldingRow as ToldHoldingRow};
    ghost use Rattle.row_decoding.specs.Readings.{holding_in_answer};
    ghost use Rattle.desk_core.specs.RowRecords.{holding_record};

    ghost Told = { ToldHoldingRow };

    ghost told = { holding_record };

    ghost says = { holding_in_answer };

    fn read(row: &Row) -> Option<HoldingRow> {
        let container = number_in(cell(row, 0))?;
        let place = number_in(cell(row, 1))?;
        let held_by = number_or_null_in(cell(row, 2))?;
        Some(HoldingRow {
            container,
            place,
            held_by,
        })
    }
}

impl FromCells for RunRow {
    ghost use Rattle.desk_core.specs.DeskRows.{RunRow as ToldRunRow};
    ghost use Rattle.row_decoding.specs.Readings.{run_in_answer};
    ghost use Rattle.desk_core.specs.RowRecords.{run_record};

    ghost Told = { ToldRunRow };

    ghost told = { run_record };

    ghost says = { run_in_answer };

    fn read(row: &Row) -> Option<RunRow> {
        let id = number_in(cell(row, 0))?;
        let day = whole_in(cell(row, 1))?;
        Some(RunRow { id, day })
    }
}

impl FromCells for RunLineRow {
    ghost use Rattle.desk_core.specs.DeskRows.{RunLineRow as ToldRunLineRow};
    ghost use Rattle.row_decoding.specs.Readings.{run_line_in_answer};
    ghost use Rattle.desk_core.specs.RowRecords.{run_line_record};

    ghost Told = { ToldRunLineRow };

    ghost told = { run_line_record };

    ghost says = { run_line_in_answer };

    fn read(row: &Row) -> Option<RunLineRow> {
        let run = number_in(cell(row, 0))?;
        let container = number_in(cell(row, 1))?;
        let order_no = number_in(cell(row, 2))?;
        let ticket = number_in(cell(row, 3))?;
        Some(RunLineRow {
            run,
            container,
            order_no,
            ticket,
        })
    }
}

/// Reads the taken seats that can be read, in any order, and tells whether all can be.
pub fn seats<P: Versioned, S: Alter>(
    alloc: Global,
    tables: &mut Tables<P, S>,
) -> Result<Gathered<SeatRow>, StoreFault>
    ensures { Examines S.Store tables.old tables.new result
        (IsTable in_any_order cells.read_seat schema.seat seat_record) }
{
    read_rows(alloc, tables, "SELECT seat, ticket FROM seat")
}

/// Reads the permits that can be read, in any order, and tells whether all can be.
pub fn permits<P: Versioned, S: Alter>(
    alloc: Global,
    tables: &mut Tables<P, S>,
) -> Result<Gathered<PermitRow>, StoreFault>
    ensures { Examines S.Store tables.old tables.new result
        (IsTable in_any_order cells.read_permit schema.permit permit_record) }
{
    read_rows(alloc, tables, "SELECT ticket, unit, until FROM permit")
}

/// Reads the orders that can be read, in ascending order of their numbers, and tells whether all can be.
pub fn orders<P: Versioned, S: Alter>(
    alloc: Global,
    tables: &mut Tables<P, S>,
) -> Result<Gathered<OrderRow>, StoreFault>
    ensures { Examines S.Store tables.old tables.new result
        (IsTable by_rowid cells.read_order schema.orders order_record) }
{
    read_rows(
        alloc,
        tables,
        "SELECT id, ticket, container, day, state FROM orders ORDER BY id",
    )
}

/// Reads the rows of `holding` that can be read, one for each container that is not on the shelf, in any order, and
/// tells whether all can be.
pub fn holdings<P: Versioned, S: Alter>(
    alloc: Global,
    tables: &mut Tables<P, S>,
) -> Result<Gathered<HoldingRow>, StoreFault>
    ensures { Examines S.Store tables.old tables.new result
        (IsTable in_any_order cells.read_holding schema.holding holding_record) }
{
    read_rows(
        alloc,
        tables,
        "SELECT container, place, held_by FROM holding",
    )
}

/// Reads the runs that can be read, in ascending order of their numbers, and tells whether all can be.
pub fn runs<P: Versioned, S: Alter>(
    alloc: Global,
    tables: &mut Tables<P, S>,
) -> Result<Gathered<RunRow>, StoreFault>
    ensures { Examines S.Store tables.old tables.new result (IsTable by_rowid cells.read_run schema.run run_record) }
{
    read_rows(alloc, tables, "SELECT id, day FROM run ORDER BY id")
}

/// Reads the lines of the runs that can be read, in any order, and tells whether all can be.
pub fn run_lines<P: Versioned, S: Alter>(
    alloc: Global,
    tables: &mut Tables<P, S>,
) -> Result<Gathered<RunLineRow>, StoreFault>
    ensures { Examines S.Store tables.old tables.new result
        (IsTable in_any_order cells.read_run_line schema.run_line run_line_record) }
{
    read_rows(
        alloc,
        tables,
        "SELECT run, container, order_no, ticket FROM run_line",
    )
}

/// Reads the numbers of the rows of units, in any order, and tells whether each is one from 0 on. No other cell is
/// read.
pub fn unit_numbers<P: Versioned, S: Alter>(
    alloc: Global,
    tables: &mut Tables<P, S>,
) -> Result<Gathered<u64>, StoreFault>
    ensures { Examines S.Store tables.old tables.new result (IsTable in_any_order read_number schema.unit (λ n. n)) }
{
    read_rows(alloc, tables, "SELECT id FROM unit")
}

/// Reads the numbers of the rows of containers, in any order, and tells whether each is one from 0 on. No other cell is
/// read.
pub fn container_numbers<P: Versioned, S: Alter>(
    alloc: Global,
    tables: &mut Tables<P, S>,
) -> Result<Gathered<u64>, StoreFault>
    ensures { Examines S.Store tables.old tables.new result
        (IsTable in_any_order read_number schema.container (λ n. n)) }
{
    read_rows(alloc, tables, "SELECT id FROM container")
}
