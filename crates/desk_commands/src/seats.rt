//! Taking and leaving seats.

ghost use Rattle.std.specs.Prelude.{◌≡◌, IfOk, IsPermutation, map, ⊤};
ghost use Rattle.std.specs.List.Sorted.{IsNonDecreasing};
ghost use Rattle.desk_store.specs.declared.taken_seats.TakenSeat.{TakenSeat as Taken};
ghost use Rattle.office_core.specs.declared.command.Command.TheVariants as command;
ghost use Rattle.refinement.specs.ReadingRoomLimits.{limits_of};
ghost use Rattle.refinement.specs.Sitters.{sitter};
ghost use Rattle.desk_commands.specs.Seats.{MayLeave, MaySit};
ghost use Rattle.desk_commands.specs.SparedCatalogue.{PerformsSparing};

use catalogue_store::Places;
use desk_core::{Limits, Reader, may_leave, may_sit};
use desk_store::{TakenSeat, seats, set_seat, ticket_holder};
use isad_core::{Day, Number};
use office_core::{Done, Refusal};
use office_tables::{StoreFault, Tables};
use sqlite::Alter;
use std::alloc::{AllocError, Global};

/// Frees the seat of a ticket that is known to be allowed to leave.
fn free_seat<P: Places, S: Alter>(
    tables: &mut Tables<P, S>,
    ticket: Number,
    seat: u32,
) -> Result<Result<Done, Refusal>, StoreFault>
    ensures { PerformsSparing P.represents P.version S.Store (λ s. MayLeave s ticket seat) (command.LeaveSeat ticket)
        tables.old tables.new result }
{
    set_seat(tables, seat, None)?;
    Ok(Ok(Done::LeaveSeat { seat }))
}

/// Frees the seat of a ticket, and tells it. The command is refused if the ticket was not given, has no seat, or has a
/// container out. After a refusal the caller must roll the transaction back.
pub fn leave_seat<P: Places, S: Alter>(
    alloc: Global,
    tables: &mut Tables<P, S>,
    ticket: Number,
) -> Result<Result<Done, Refusal>, StoreFault>
    ensures { PerformsSparing P.represents P.version S.Store (λ _. ⊤) (command.LeaveSeat ticket)
        tables.old tables.new result }
{
    let who = ticket_holder(alloc, tables, ticket)?;
    match may_leave(who.as_ref()) {
        Ok(seat) => free_seat(tables, ticket, seat),
        Err(why) => Ok(Err(why)),
    }
}

/// The numbers of the taken seats, in ascending order.
fn numbers_of(alloc: Global, taken: &[TakenSeat]) -> Result<Vec<u32>, AllocError>
    ensures same { IfOk result (λ numbers. IsPermutation (map (λ (t : Taken). t.seat) taken.now) numbers.items) }
    ensures rise { IfOk result (λ numbers. IsNonDecreasing numbers.items) }
{
    let mut numbers = taken
        .iter()
        .map(|taken| taken.seat)
        .collect::<Vec<u32>>(alloc)?;
    numbers.sort_unstable();
    Ok(numbers)
}

/// Gives a ticket a seat that is free.
fn take<P: Places, S: Alter>(
    tables: &mut Tables<P, S>,
    ticket: Number,
    seat: u32,
) -> Result<Result<Done, Refusal>, StoreFault>
    ensures { PerformsSparing P.represents P.version S.Store (λ s. MaySit s ticket seat) (command.TakeSeat ticket)
        tables.old tables.new result }
{
    set_seat(tables, seat, Some(ticket))?;
    Ok(Ok(Done::TakeSeat { seat }))
}

/// Gives a reader the lowest free seat, if the reader may sit down.
fn sit_down<P: Places, S: Alter>(
    alloc: Global,
    tables: &mut Tables<P, S>,
    today: Day,
    limits: &Limits,
    ticket: Number,
    who: Option<Reader>,
) -> Result<Result<Done, Refusal>, StoreFault>
    ensures { PerformsSparing P.represents P.version S.Store
        (λ s. (today ≡ s.day) × (limits.now ≡ limits_of s) × (who ≡ sitter s ticket)) (command.TakeSeat ticket)
        tables.old tables.new result }
{
    let taken = seats(alloc, tables)?;
    let numbers = numbers_of(alloc, &taken)?;
    match may_sit(who.as_ref(), today, &numbers, limits) {
        Ok(seat) => take(tables, ticket, seat),
        Err(why) => Ok(Err(why)),
    }
}

/// Gives a ticket the lowest free seat, and tells it. The command is refused if the ticket was not given, has expired
/// or has a seat, or if no seat is free. After a refusal the caller must roll the transaction back. `today` and
/// `limits` must be the office's.
pub fn take_seat<P: Places, S: Alter>(
    alloc: Global,
    tables: &mut Tables<P, S>,
    today: Day,
    limits: &Limits,
    ticket: Number,
) -> Result<Result<Done, Refusal>, StoreFault>
    ensures { PerformsSparing P.represents P.version S.Store (λ s. (today ≡ s.day) × (limits.now ≡ limits_of s))
        (command.TakeSeat ticket) tables.old tables.new result }
{
    let who = ticket_holder(alloc, tables, ticket)?;
    sit_down(alloc, tables, today, limits, ticket, who)
}
