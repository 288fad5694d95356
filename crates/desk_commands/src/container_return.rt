//! Taking a container back from its reader.

ghost use Rattle.std.specs.Prelude.{◌≡◌, true, ⊤};
ghost use Rattle.desk_core.specs.declared.reader.Place.TheVariants.{Out};
ghost use Rattle.office_core.specs.State.{is_container};
ghost use Rattle.office_core.specs.declared.command.Command.TheVariants as command;
ghost use Rattle.desk_commands.specs.SparedCatalogue.{PerformsSparing};

use crate::container_moves::hand_over;
use catalogue_store::Places;
use desk_core::{Place, known_container};
use desk_store::{OrderState, queue_head};
use isad_core::Number;
use office_core::{Done, Refusal};
use office_tables::{StoreFault, Tables};
use sqlite::Alter;
use std::alloc::Global;

/// Takes back to the desk a container that is known to be out with this order.
fn take_back<P: Places, S: Alter>(
    tables: &mut Tables<P, S>,
    container: Number,
    order: Number,
) -> Result<Result<Done, Refusal>, StoreFault>
    ensures { PerformsSparing P.represents P.version S.Store (λ s. s.place container ≡ Out order)
        (command.Return container) tables.old tables.new result }
{
    hand_over(tables, container, Place::Desk, order, OrderState::Done)?;
    Ok(Ok(Done::Return { order: order.get() }))
}

/// Takes back to the desk a container that is known to be at this place. The command is refused if it is not out.
fn return_from<P: Places, S: Alter>(
    tables: &mut Tables<P, S>,
    container: Number,
    place: Place,
) -> Result<Result<Done, Refusal>, StoreFault>
    ensures { PerformsSparing P.represents P.version S.Store
        (λ s. (is_container s container ≡ true) × (s.place container ≡ place))
        (command.Return container) tables.old tables.new result }
{
    match place {
        Place::Out(order) => take_back(tables, container, order),
        _ => Ok(Err(Refusal::NotIssued)),
    }
}

/// Takes a container back to the desk, ends its order as done, and tells the order's number. The command is refused if
/// the container is not known or is not out. After a refusal the caller must roll the transaction back.
pub fn return_container<P: Places, S: Alter>(
    alloc: Global,
    tables: &mut Tables<P, S>,
    container: Number,
) -> Result<Result<Done, Refusal>, StoreFault>
    ensures { PerformsSparing P.represents P.version S.Store (λ _. ⊤) (command.Return container)
        tables.old tables.new result }
{
    let found = queue_head(alloc, tables, container)?;
    match known_container(found) {
        Ok(head) => return_from(tables, container, head.place),
        Err(why) => Ok(Err(why)),
    }
}
