//! Renewing tickets.

ghost use Rattle.std.specs.Prelude.{◌≡◌, true, ⊤};
ghost use Rattle.office_core.specs.State.{is_ticket};
ghost use Rattle.office_core.specs.declared.command.Command.TheVariants as command;
ghost use Rattle.desk_commands.specs.SparedCatalogue.{PerformsSparing};

use catalogue_store::Places;
use desk_store::{is_registered, renew};
use isad_core::{Day, Number};
use office_core::{Done, Refusal};
use office_tables::{StoreFault, Tables};
use sqlite::Alter;
use std::alloc::Global;

/// Writes the last day of a ticket that was given.
fn set_last_day<P: Places, S: Alter>(
    tables: &mut Tables<P, S>,
    ticket: Number,
    until: Day,
) -> Result<Result<Done, Refusal>, StoreFault>
    ensures { PerformsSparing P.represents P.version S.Store (λ s. is_ticket s ticket ≡ true)
        (command.Renew ticket until) tables.old tables.new result }
{
    renew(tables, ticket, until)?;
    Ok(Ok(Done::Renew {
        ticket: ticket.get(),
    }))
}

/// Gives a ticket another last day, and tells its number. The command is refused if the ticket was not given. After a
/// refusal the caller must roll the transaction back.
pub fn renew_ticket<P: Places, S: Alter>(
    alloc: Global,
    tables: &mut Tables<P, S>,
    ticket: Number,
    until: Day,
) -> Result<Result<Done, Refusal>, StoreFault>
    ensures { PerformsSparing P.represents P.version S.Store (λ _. ⊤) (command.Renew ticket until)
        tables.old tables.new result }
{
    let known = is_registered(alloc, tables, ticket)?;
    if !known {
        return Ok(Err(Refusal::UnknownTicket));
    }
    set_last_day(tables, ticket, until)
}
