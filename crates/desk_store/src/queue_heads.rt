//! The heads of queues: where containers are, and who is the first that waits.

ghost use Rattle.office_tables.specs.Calls.{StoreAnswers};
ghost use Rattle.office_tables.specs.Premises.{◌within◌gives◌};
ghost use Rattle.desk_store.specs.Storage.{RepresentsQueues, IsLegibleStorage, container_with, IsHeaded};

use crate::container_labels::is_known;
use crate::orders::WaitingOrder;
use crate::queues::place_of;
use crate::waiting_orders::first_for;
use desk_core::Place;
use isad_core::Number;
use office_tables::{StoreFault, Tables, Versioned};
use sqlite::Alter;
use std::alloc::Global;

/// Where a container is, and the first order that waits for it.
#[derive(Debug, Clone, Copy, PartialEq, Eq)]
pub struct QueueHead {
    pub place: Place,
    /// The order with the least number of those that wait for it, or none if none waits.
    pub first: Option<WaitingOrder>,
}

/// Where a container is, and the order with the least number of those that wait for it, if one waits; none if the
/// container is not known. Neither what is written on the container nor any other order is read.
pub fn queue_head<P: Versioned, S: Alter>(
    alloc: Global,
    tables: &mut Tables<P, S>,
    container: Number,
) -> Result<Option<QueueHead>, StoreFault>
    ensures answers { StoreAnswers S.Store RepresentsQueues tables.old tables.new result
        within IsLegibleStorage
        gives λ _ storage found. IsHeaded container storage (container_with container storage) found }
{
    let known = is_known(alloc, tables, container)?;
    if !known {
        return Ok(None);
    }
    let place = place_of(alloc, tables, container)?;
    let first = first_for(alloc, tables, container)?;
    Ok(Some(QueueHead { place, first }))
}
