//! Moving containers from one place to another.

ghost use Rattle.std.specs.Prelude.{[], ◌∷◌};
ghost use Rattle.desk_store.specs.Representation.{IsLegible, RepresentsDeskAlone};
ghost use Rattle.office_tables.specs.Calls.{Updates};
ghost use Rattle.office_tables.specs.Premises.{◌gives◌, ◌within◌gives◌};
ghost use Rattle.office_tables.specs.Schema as schema;
ghost use Rattle.desk_commands.specs.ContainerMoves.{handed_over, with_all_placed};

use desk_core::Place;
use desk_store::{OrderState, end_order, set_place};
use isad_core::Number;
use office_tables::{StoreFault, Tables, Versioned};
use sqlite::Alter;

/// Moves a container to a place, and sets an order to a state. The caller sees to it that order and state fit the
/// place.
pub(crate) fn hand_over<P: Versioned, S: Alter>(
    tables: &mut Tables<P, S>,
    container: Number,
    place: Place,
    order: Number,
    next: OrderState,
) -> Result<(), StoreFault>
    ensures updates { Updates S.Store (schema.orders.tree ∷ schema.holding.tree ∷ []) RepresentsDeskAlone
        tables.old tables.new result
        within IsLegible gives handed_over container place order next }
{
    end_order(tables, order, next)?;
    set_place(tables, container, place)
}

/// Moves these containers to one place, one after the other.
pub(crate) fn move_all<P: Versioned, S: Alter>(
    tables: &mut Tables<P, S>,
    containers: &[Number],
    place: &Place,
) -> Result<(), StoreFault>
    ensures updates { Updates S.Store (schema.holding.tree ∷ []) RepresentsDeskAlone tables.old tables.new result
        gives with_all_placed place.now containers.now }
{
    for container in containers {
        set_place(tables, *container, *place)?;
    }
    Ok(())
}
