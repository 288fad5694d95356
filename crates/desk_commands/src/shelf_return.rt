//! Moving containers that nobody waits for back to the shelf.

ghost use Rattle.std.specs.Prelude.{◌≡◌, false, ⊤};
ghost use Rattle.office_core.specs.State.{idle};
ghost use Rattle.office_core.specs.Words.{is_empty};
ghost use Rattle.office_core.specs.declared.command.Command.TheVariants as command;
ghost use Rattle.desk_commands.specs.SparedCatalogue.{PerformsSparing};

use crate::container_moves::move_all;
use crate::emptiness::are_none;
use catalogue_store::Places;
use desk_core::{Place, pick_reshelve};
use desk_store::at_desk;
use isad_core::{List, Number};
use office_core::{Done, Refusal};
use office_tables::{StoreFault, Tables};
use sqlite::Alter;
use std::alloc::Global;

/// Moves these containers back to the shelf. They are known to be those at the desk that nobody waits for.
fn shelve<P: Places, S: Alter>(
    tables: &mut Tables<P, S>,
    containers: Vec<Number>,
) -> Result<Result<Done, Refusal>, StoreFault>
    ensures { PerformsSparing P.represents P.version S.Store
        (λ s. (containers.items ≡ idle s) × (is_empty (idle s) ≡ false)) command.Reshelve tables.old tables.new result }
{
    move_all(tables, &containers, &Place::Shelf)?;
    Ok(Ok(Done::Reshelve {
        containers: List(containers),
    }))
}

/// Moves the containers at the desk that nobody waits for back to the shelf, and tells them. The command is refused if
/// there are none. After a refusal the caller must roll the transaction back.
pub fn reshelve<P: Places, S: Alter>(
    alloc: Global,
    tables: &mut Tables<P, S>,
) -> Result<Result<Done, Refusal>, StoreFault>
    ensures { PerformsSparing P.represents P.version S.Store (λ _. ⊤) command.Reshelve tables.old tables.new result }
{
    let told = at_desk(alloc, tables)?;
    let idle = pick_reshelve(alloc, &told)?;
    if are_none(&idle) {
        return Ok(Err(Refusal::NothingToMove));
    }
    shelve(tables, idle)
}
