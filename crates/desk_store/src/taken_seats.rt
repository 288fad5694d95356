//! The seats that are taken, and who has them.

ghost use Rattle.std.specs.Prelude.{◌≡◌, ◌<◌, ◌^◌, not, nat_eq, false, [], ◌∷◌, filter, find, option_map, OnOk};
ghost use Rattle.std.specs.Prelude.{IfSome};
ghost use Rattle.std.specs.List.{AllByRecursion, list_any};
ghost use Rattle.sqlite.specs.Held.{state};
ghost use Rattle.sqlite.specs.State.{HasCleanDisk};
ghost use Rattle.desk_core.specs.DeskRows.{SeatRow};
ghost use Rattle.office_tables.specs.Calls.{StoreUpdates, StoreAnswers};
ghost use Rattle.office_tables.specs.Premises.{◌when◌leaves◌, ◌when◌within◌gives◌, ◌within◌adds◌, ◌within◌gives◌};
ghost use Rattle.office_tables.specs.Schema as schema;
ghost use Rattle.office_tables.specs.Step.{Holds, PutsRow};
ghost use Rattle.office_tables.specs.TableStatements.{LooksUp, Puts, Thins};
ghost use Rattle.desk_store.specs.Rows.{seat_cells};
ghost use Rattle.desk_store.specs.Seats.{taken_seats, with_seat, MayTake};
ghost use Rattle.desk_store.specs.Representation.{RepresentsDeskAlone, IsLegible};
ghost use Rattle.office_tables.specs.RowNumbers.{AreByNumber};
ghost use Rattle.desk_store.specs.declared.taken_seats.TakenSeat.{TakenSeat};

use isad_core::Number;
use office_tables::from_row::FromRow;
use office_tables::{StoreFault, Tables, Versioned, cell, change, find, find_one, number_at};
use sqlite::{Alter, Row};
use std::alloc::Global;

/// A seat that is taken.
#[derive(Debug, Clone, Copy, PartialEq, Eq, Drop)]
pub struct TakenSeat {
    pub seat: u32,
    pub ticket: Number,
}

impl FromRow for TakenSeat {
    ghost use Rattle.std.specs.Prelude.{pos, [], ◌∷◌, ◌<◌, ◌^◌};
    ghost use Rattle.sqlite.specs.declared.types.Value.TheVariants.{Int};

    ghost cells = { λ s. Int (pos s.seat) ∷ Int (pos s.ticket) ∷ [] };

    ghost is_legible = { λ s. s.seat < 2 ^ 32 };

    fn read(row: &Row) -> Result<TakenSeat, StoreFault> {
        Ok(TakenSeat {
            seat: row.get(0)?,
            ticket: number_at(row, 1)?,
        })
    }
}

/// The seats that are taken, in ascending order of their numbers, each with its ticket. This reads the whole table,
/// which has a row for each of them.
pub fn seats<P: Versioned, S: Alter>(
    alloc: Global,
    tables: &mut Tables<P, S>,
) -> Result<Vec<TakenSeat>, StoreFault>
    ensures answers { StoreAnswers S.Store RepresentsDeskAlone tables.old tables.new result
        within IsLegible gives λ _ d all. all.items ≡ taken_seats d }
{
    find(
        alloc,
        tables,
        "SELECT seat, ticket FROM seat ORDER BY seat",
        &[],
    )
}

/// The seat of a ticket, or none if it has none. Seats are found by their tickets, which are unique. If the number of a
/// seat does not fit 32 bits, it may fail with `Schema`.
pub(crate) fn find_seat<P: Versioned, S: Alter>(
    alloc: Global,
    tables: &mut Tables<P, S>,
    ticket: Number,
) -> Result<Option<TakenSeat>, StoreFault>
    ensures { LooksUp S.Store (Holds schema.seat seat_cells) tables.old tables.new result
        when AreByNumber (λ s. s.seat) within AllByRecursion (λ s. s.seat < 2 ^ 32)
        gives λ xs found. found ≡ option_map (λ (s : SeatRow). record { seat = s.seat; ticket = s.ticket })
        (find (λ s. nat_eq ticket s.ticket) xs) }
{
    find_one(
        alloc,
        tables,
        "SELECT seat, ticket FROM seat WHERE ticket = ?1 ORDER BY seat",
        &[cell(ticket)],
    )
}

/// Gives a free seat to a ticket that has none. If the seat is taken or the ticket has one, it may fail with `Schema`.
fn insert_seat<P: Versioned, S: Alter>(
    tables: &mut Tables<P, S>,
    seat: Number,
    ticket: Number,
) -> Result<(), StoreFault>
    ensures { Puts S.Store schema.seat seat_cells tables.old tables.new result
        within (λ xs. (list_any (λ s. nat_eq seat s.seat) xs ≡ false)
        × (list_any (λ s. nat_eq ticket s.ticket) xs ≡ false))
        adds record { seat = seat; ticket = ticket } }
{
    change(
        tables,
        "INSERT INTO seat (seat, ticket) VALUES (?1, ?2)",
        &[cell(seat), cell(ticket)],
    )
}

/// Frees a seat, if it is taken.
fn clear_seat<P: Versioned, S: Alter>(
    tables: &mut Tables<P, S>,
    seat: Number,
) -> Result<(), StoreFault>
    ensures { Thins S.Store schema.seat seat_cells tables.old tables.new result
        when AreByNumber (λ s. s.seat) leaves filter (λ s. not (nat_eq seat s.seat)) }
{
    change(tables, "DELETE FROM seat WHERE seat = ?1", &[cell(seat)])
}

/// Gives a free seat to a ticket, or frees the seat if `who` is none; to free a free seat changes nothing. The table
/// refuses a seat that is taken, and a ticket that has a seat. Neither the seat nor the ticket is looked up elsewhere.
pub fn set_seat<P: Versioned, S: Alter>(
    tables: &mut Tables<P, S>,
    seat: u32,
    who: Option<Number>,
) -> Result<(), StoreFault>
    ensures updates { StoreUpdates S.Store (schema.seat.tree ∷ []) RepresentsDeskAlone tables.old tables.new result
        when MayTake seat who within IsLegible gives with_seat seat who }
    ensures puts { HasCleanDisk (state S.Store tables.new)
        → IfSome who (λ ticket. OnOk result (PutsRow schema.seat.tree
        (seat_cells (record { seat = seat; ticket = ticket })) (state S.Store tables.old).now
        (state S.Store tables.new).now)) }
{
    match who {
        Some(ticket) => insert_seat(tables, Number::from(seat), ticket),
        None => clear_seat(tables, Number::from(seat)),
    }
}
