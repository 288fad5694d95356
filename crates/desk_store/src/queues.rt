//! Queues of containers.

ghost use Rattle.std.specs.Prelude.{◌≡◌, ◌≢◌, nat_eq, find, option_map, IfOk, IfErr, IsOk, ⊤};
ghost use Rattle.desk_core.specs.DeskRows.{HoldingRow};
ghost use Rattle.office_tables.specs.Calls.{StoreAnswers};
ghost use Rattle.office_tables.specs.Premises.{◌when◌gives◌, ◌within◌gives◌};
ghost use Rattle.office_tables.specs.Schema as schema;
ghost use Rattle.office_tables.specs.Step.{Holds};
ghost use Rattle.office_tables.specs.TableStatements.{LooksUp};
ghost use Rattle.desk_store.specs.Orders.{holding_of, IsAt};
ghost use Rattle.desk_store.specs.Rows.{holding_cells};
ghost use Rattle.desk_store.specs.Representation.{IsKnownPlace, RepresentsDeskAlone, IsLegible};
ghost use Rattle.office_tables.specs.RowNumbers.{AreByNumber};
ghost use Rattle.desk_store.specs.Storage.{RepresentsQueues, IsLegibleStorage, container_with, IsQueued};

use crate::container_labels::box_of;
use crate::orders::WaitingOrder;
use crate::waiting_orders::waiting_for;
use desk_core::Place;
use isad_core::{List, Number, Text};
use office_tables::from_row::FromRow;
use office_tables::{StoreFault, Tables, Versioned, cell, find_one, number_or_null_at};
use sqlite::{Alter, Row};
use std::alloc::Global;

/// A container, and the orders that wait for it.
#[derive(Debug, Drop)]
pub struct ContainerQueue {
    /// The name that is written on it.
    pub name: Text,
    pub place: Place,
    /// The orders that wait for it, in ascending order of their numbers.
    pub waiting: List<WaitingOrder>,
}

/// The place of a container, as its row shows it.
#[derive(Debug, Clone, Copy, PartialEq, Eq, Drop)]
pub(crate) struct PlaceEntry {
    /// 1 at the desk, 2 out.
    place: u64,
    /// The order that it is out with, or none.
    pub held_by: Option<Number>,
}

impl FromRow for PlaceEntry {
    ghost use Rattle.std.specs.Prelude.{pos, option_map, [], ◌∷◌, ⊤};
    ghost use Rattle.sqlite.specs.Values.{or_null};
    ghost use Rattle.sqlite.specs.declared.types.Value.TheVariants.{Int};

    ghost cells = { λ h. Int (pos h.place) ∷ or_null Int (option_map pos h.held_by) ∷ [] };

    ghost is_legible = { λ _. ⊤ };

    fn read(row: &Row) -> Result<PlaceEntry, StoreFault> {
        Ok(PlaceEntry {
            place: row.get(0)?,
            held_by: number_or_null_at(row, 1)?,
        })
    }
}

impl PlaceEntry {
    /// Decodes the place. Fails with `StoreFault::Schema` if there is no such place, or if the container is out without
    /// an order.
    fn place(&self) -> Result<Place, StoreFault>
        ensures place { IfOk result
            (IsAt (Some (record { container = 0; place = self.now.place; held_by = self.now.held_by }))) }
        ensures known { IsKnownPlace self.now.place self.now.held_by → IsOk result }
        ensures fair { IfErr result (λ e. e ≢ StoreFault.Disk) }
    {
        match (self.place, self.held_by) {
            (1, _) => Ok(Place::Desk),
            (2, Some(order)) => Ok(Place::Out(order)),
            _ => Err(StoreFault::Schema),
        }
    }
}

/// The row with the place of a container, or none. It is found by the container's number.
pub(crate) fn find_place<P: Versioned, S: Alter>(
    alloc: Global,
    tables: &mut Tables<P, S>,
    container: Number,
) -> Result<Option<PlaceEntry>, StoreFault>
    ensures { LooksUp S.Store (Holds schema.holding holding_cells) tables.old tables.new result
        when AreByNumber (λ h. h.container)
        gives λ xs found. found ≡ option_map (λ (h : HoldingRow). record { place = h.place; held_by = h.held_by })
        (find (λ (h : HoldingRow). nat_eq container h.container) xs) }
{
    find_one(
        alloc,
        tables,
        "SELECT place, held_by FROM holding WHERE container = ?1 ORDER BY container",
        &[cell(container)],
    )
}

/// Where a container is. A container without a row, even one that is not known, is on the shelf.
pub(crate) fn place_of<P: Versioned, S: Alter>(
    alloc: Global,
    tables: &mut Tables<P, S>,
    container: Number,
) -> Result<Place, StoreFault>
    ensures answers { StoreAnswers S.Store RepresentsDeskAlone tables.old tables.new result
        within IsLegible gives λ _ d place. IsAt (holding_of container d) place }
{
    match find_place(alloc, tables, container)? {
        Some(entry) => entry.place(),
        None => Ok(Place::Shelf),
    }
}

/// The name of a container, where it is, and the orders that wait for it, in ascending order of their numbers; none if
/// the container is not known.
pub fn queue<P: Versioned, S: Alter>(
    alloc: Global,
    tables: &mut Tables<P, S>,
    container: Number,
) -> Result<Option<ContainerQueue>, StoreFault>
    ensures answers { StoreAnswers S.Store RepresentsQueues tables.old tables.new result
        within IsLegibleStorage
        gives λ _ storage found. IsQueued container storage (container_with container storage) found }
{
    let Some(known) = box_of(alloc, tables, container)? else {
        return Ok(None);
    };
    let place = place_of(alloc, tables, container)?;
    let waiting = waiting_for(alloc, tables, container)?;
    Ok(Some(ContainerQueue {
        name: known.name,
        place,
        waiting: List(waiting),
    }))
}
