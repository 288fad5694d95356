//! Registering readers.

ghost use Rattle.std.specs.Prelude.{◌≡◌, true, IsUtf8, ⊤};
ghost use Rattle.office_core.specs.Rules.{is_name};
ghost use Rattle.office_core.specs.declared.command.Command.TheVariants as command;
ghost use Rattle.desk_commands.specs.SparedCatalogue.{PerformsSparing};

use catalogue_store::Places;
use desk_store::add_reader;
use isad_core::{Day, Text};
use office_core::{Done, Refusal};
use office_tables::{StoreFault, Tables};
use sqlite::Alter;

/// Gives a reader the next ticket, and tells its number. The name must be a valid one. The command is refused if no
/// ticket is left. After a refusal the caller must roll the transaction back.
pub fn register<P: Places, S: Alter>(
    tables: &mut Tables<P, S>,
    name: &Text,
    until: Day,
) -> Result<Result<Done, Refusal>, StoreFault>
    requires named { is_name name.now ≡ true }
    requires text { IsUtf8 name.now }
    ensures { PerformsSparing P.represents P.version S.Store (λ _. ⊤) (command.Register name.now until)
        tables.old tables.new result }
{
    let Some(ticket) = add_reader(tables, name, until)? else {
        return Ok(Err(Refusal::Full));
    };
    Ok(Ok(Done::Register {
        ticket: ticket.get(),
    }))
}
