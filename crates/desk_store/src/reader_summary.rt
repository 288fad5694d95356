//! What the desk knows about a ticket.

ghost use Rattle.std.specs.Prelude.{◌≡◌, ◌<◌, ◌≤◌, ◌^◌, ◌&&◌, ◌++◌, nat_eq, length, map, filter, IsPermutation};
ghost use Rattle.std.specs.List.Sorted.{IsNonDecreasingBy};
ghost use Rattle.std.specs.Prelude.{option_map, IfOk, ⊤};
ghost use Rattle.std.specs.List.{count_by};
ghost use Rattle.std.specs.Ordering.{int_eq};
ghost use Rattle.sqlite.specs.Held.{state};
ghost use Rattle.isad_core.specs.Limits.{most_orders};
ghost use Rattle.desk_core.specs.DeskRows.{OrderRow};
ghost use Rattle.office_tables.specs.Calls.{StoreAnswers};
ghost use Rattle.office_tables.specs.Premises.{◌when◌gives◌, ◌when◌within◌gives◌, ◌within◌gives◌};
ghost use Rattle.office_tables.specs.Schema as schema;
ghost use Rattle.office_tables.specs.Step.{Holds};
ghost use Rattle.office_tables.specs.TableStatements.{LooksUp};
ghost use Rattle.desk_store.specs.Readers.{has_not_ended, orders_not_ended, held_with, placed_on, card_of};
ghost use Rattle.desk_store.specs.Rows.{order_cells};
ghost use Rattle.desk_store.specs.Representation.{RepresentsDeskAlone, IsLegible};
ghost use Rattle.office_tables.specs.RowNumbers.{AreCounted};

use crate::readers::{NamedReader, find_reader};
use crate::taken_seats::{TakenSeat, find_seat};
use desk_core::Reader;
use isad_core::{Day, List, Number, Text};
use office_tables::from_row::FromRow;
use office_tables::value::day;
use office_tables::{StoreFault, Tables, Versioned, cell, find, find_number, number_at};
use sqlite::{Alter, Row};
use std::alloc::{AllocError, Global};

/// An order that waits or is out.
#[derive(Debug, Clone, Copy, PartialEq, Eq)]
pub struct LiveOrder {
    pub order: Number,
    pub container: Number,
    /// True if it is out, false if it waits.
    pub is_out: bool,
}

/// A reader's card on a day.
#[derive(Debug, Drop)]
pub struct ReaderCard {
    pub reader: Reader,
    pub name: Text,
    /// The orders that wait or are out, in ascending order of their numbers.
    pub live: List<LiveOrder>,
    /// How many orders the ticket placed on the day, including those that have ended.
    pub placed: u32,
    /// How many orders all tickets have placed so far.
    pub orders: u32,
}

/// An order that has not ended, as its row shows it.
#[derive(Debug, Clone, Copy, PartialEq, Eq, Drop)]
pub(crate) struct OrderLine {
    pub order: Number,
    pub container: Number,
    /// 1 waiting, 2 out.
    pub state: u64,
}

impl FromRow for OrderLine {
    ghost use Rattle.std.specs.Prelude.{pos, [], ◌∷◌, ⊤};
    ghost use Rattle.sqlite.specs.declared.types.Value.TheVariants.{Int};

    ghost cells = { λ o. Int (pos o.order) ∷ Int (pos o.container) ∷ Int (pos o.state) ∷ [] };

    ghost is_legible = { λ _. ⊤ };

    fn read(row: &Row) -> Result<OrderLine, StoreFault> {
        Ok(OrderLine {
            order: number_at(row, 0)?,
            container: number_at(row, 1)?,
            state: row.get(2)?,
        })
    }
}

/// An order in this state waits.
const WAITING: u32 = 1;

/// An order in this state is out.
const OUT: u32 = 2;

/// The orders of a ticket that are in this state, in ascending order of their numbers. The index of the orders by ticket
/// and state finds them, so no others are read.
fn lines_in<P: Versioned, S: Alter>(
    alloc: Global,
    tables: &mut Tables<P, S>,
    ticket: Number,
    state: u32,
) -> Result<Vec<OrderLine>, StoreFault>
    ensures { LooksUp S.Store (Holds schema.orders order_cells) tables.old tables.new result
        when AreCounted (λ o. o.id) gives λ xs found. found.items
        ≡ map (λ (o : OrderRow). record { order = o.id; container = o.container; state = o.state })
        (filter (λ o. nat_eq ticket o.ticket && nat_eq o.state state) xs) }
{
    find(
        alloc,
        tables,
        "SELECT id, container, state FROM orders WHERE ticket = ?1 AND state = ?2 ORDER BY id",
        &[cell(ticket), cell(Number::from(state))],
    )
}

/// The orders of a ticket that are out, in ascending order of their numbers.
pub(crate) fn lines_out<P: Versioned, S: Alter>(
    alloc: Global,
    tables: &mut Tables<P, S>,
    ticket: Number,
) -> Result<Vec<OrderLine>, StoreFault>
    ensures { LooksUp S.Store (Holds schema.orders order_cells) tables.old tables.new result
        when AreCounted (λ o. o.id) gives λ xs found. found.items
        ≡ map (λ (o : OrderRow). record { order = o.id; container = o.container; state = o.state })
        (filter (λ o. nat_eq ticket o.ticket && nat_eq o.state 2) xs) }
{
    lines_in(alloc, tables, ticket, OUT)
}

/// The orders of both lists, in ascending order of their numbers.
fn by_number(waiting: Vec<OrderLine>, out: &[OrderLine]) -> Result<Vec<OrderLine>, AllocError>
    ensures all { IfOk result (λ lines. IsPermutation (waiting.items ++ out.now) lines.items) }
    ensures order { IfOk result (λ lines. IsNonDecreasingBy (λ (line : OrderLine). line.order) lines.items) }
{
    let mut lines = waiting;
    lines.extend_from_slice(out)?;
    lines.sort_unstable_by_key(|line| line.order);
    Ok(lines)
}

/// The orders of a ticket that wait or are out, in ascending order of their numbers. Orders that have ended are not
/// read.
fn live_lines<P: Versioned, S: Alter>(
    alloc: Global,
    tables: &mut Tables<P, S>,
    ticket: Number,
) -> Result<Vec<OrderLine>, StoreFault>
    ensures { LooksUp S.Store (Holds schema.orders order_cells) tables.old tables.new result
        when AreCounted (λ o. o.id) gives λ xs found. found.items
        ≡ map (λ (o : OrderRow). record { order = o.id; container = o.container; state = o.state })
        (filter (λ (o : OrderRow). nat_eq ticket o.ticket && has_not_ended o) xs) }
{
    let waiting = lines_in(alloc, tables, ticket, WAITING)?;
    let out = lines_out(alloc, tables, ticket)?;
    Ok(by_number(waiting, &out)?)
}

/// How many orders all tickets have placed so far. This is the greatest number of an order, in the table's last row.
/// The orders must be numbered from 1, and be no more than `MOST_ORDERS`.
pub(crate) fn last_order<P: Versioned, S: Alter>(
    tables: &mut Tables<P, S>,
) -> Result<u32, StoreFault>
    ensures { LooksUp S.Store (Holds schema.orders order_cells) tables.old tables.new result
        when (λ xs. (length xs ≤ most_orders) × AreCounted (λ o. o.id) xs)
        within (λ xs. (length xs ≤ most_orders) × AreCounted (λ o. o.id) xs) gives λ xs n. n ≡ length xs }
{
    find_number(
        tables,
        "SELECT id FROM orders ORDER BY id DESC LIMIT 1",
        &[],
    )
}

/// How many orders a ticket placed on a day, including those that have ended. There must be no more than `MOST_ORDERS`
/// orders. They are counted by the index of the orders by ticket and day, so orders of other days are not read.
pub(crate) fn placed_on<P: Versioned, S: Alter>(
    tables: &mut Tables<P, S>,
    ticket: Number,
    on: Day,
) -> Result<u32, StoreFault>
    ensures { LooksUp S.Store (Holds schema.orders order_cells) tables.old tables.new result
        when (λ xs. length xs ≤ most_orders) within (λ xs. length xs ≤ most_orders)
        gives λ xs n. n ≡ count_by (λ (o : OrderRow). nat_eq ticket o.ticket && int_eq o.day on) xs }
{
    find_number(
        tables,
        "SELECT count(*) FROM orders WHERE ticket = ?1 AND day = ?2",
        &[cell(ticket), day(on)],
    )
}

/// The orders of a ticket on a day: those that wait or are out, how many are out, how many it placed on the day, and
/// how many all tickets have placed so far.
#[derive(Debug, Drop)]
struct TicketOrders {
    live: List<LiveOrder>,
    held: u32,
    placed: u32,
    orders: u32,
}

/// The orders in these rows.
fn live_in(alloc: Global, lines: &[OrderLine]) -> Result<List<LiveOrder>, AllocError>
    ensures { IfOk result (λ live. live ≡ map (λ (o : OrderLine).
        record { order = o.order; container = o.container; is_out = nat_eq o.state 2 }) lines.now) }
{
    let live = lines
        .iter()
        .map(|line| LiveOrder {
            order: line.order,
            container: line.container,
            is_out: line.state == 2,
        })
        .collect(alloc)?;
    Ok(List(live))
}

/// How many of the orders are out. They must be fewer than 2^32.
pub(crate) fn count_out(lines: &[OrderLine]) -> u32
    ensures { length lines.now < 2 ^ 32 → result ≡ count_by (λ o. nat_eq o.state 2) lines.now }
{
    let out = lines.iter().filter(|line| line.state == 2).count();
    u32::try_from(out).unwrap_or(u32::MAX)
}

/// The number of the seat that is taken, or none if none is.
pub(crate) fn seat_in(taken: Option<TakenSeat>) -> Option<u32>
    ensures { result ≡ option_map (λ s. s.seat) taken }
{
    taken.map(|taken| taken.seat)
}

/// The orders of a ticket that wait or are out, how many are out, how many it placed on the day, and how many all
/// tickets have placed so far.
fn orders_of<P: Versioned, S: Alter>(
    alloc: Global,
    tables: &mut Tables<P, S>,
    ticket: Number,
    today: Day,
) -> Result<TicketOrders, StoreFault>
    ensures answers { StoreAnswers S.Store RepresentsDeskAlone tables.old tables.new result
        within IsLegible gives λ _ d told.
        told ≡ record {
          live = orders_not_ended ticket d;
          held = held_with ticket d;
          placed = placed_on ticket today d;
          orders = length d.orders;
        } }
{
    let lines = live_lines(alloc, tables, ticket)?;
    let live = live_in(alloc, &lines)?;
    let held = count_out(&lines);
    let placed = placed_on(tables, ticket, today)?;
    let orders = last_order(tables)?;
    Ok(TicketOrders {
        live,
        held,
        placed,
        orders,
    })
}

/// A reader's card on a day, which may be any day, or none if the ticket was not given. If a row is not legible, it may
/// fail with `Schema`.
pub fn reader<P: Versioned, S: Alter>(
    alloc: Global,
    tables: &mut Tables<P, S>,
    ticket: Number,
    today: Day,
) -> Result<Option<ReaderCard>, StoreFault>
    ensures answers { StoreAnswers S.Store RepresentsDeskAlone tables.old tables.new result
        within IsLegible gives λ _ d card. card ≡ card_of ticket today d }
{
    let Some(NamedReader { name, until }) = find_reader(alloc, tables, ticket)? else {
        return Ok(None);
    };
    let taken = find_seat(alloc, tables, ticket)?;
    let told = orders_of(alloc, tables, ticket, today)?;
    Ok(Some(ReaderCard {
        reader: Reader {
            ticket: ticket.get(),
            until,
            seat: seat_in(taken),
            held: told.held,
        },
        name,
        live: told.live,
        placed: told.placed,
        orders: told.orders,
    }))
}
