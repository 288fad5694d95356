//! What a run brings to the desk, and what goes back to the shelf.
ghost use Rattle.std.specs.Prelude.{◌≡◌, IfOk};
ghost use Rattle.desk_core.specs.Runs.{idle_containers, reshelved_containers, run_of};

use isad_core::{Number, Text};
use std::alloc::{AllocError, Global};

/// A container that a run may take, with the first order that waits for it.
#[derive(Debug, Clone, PartialEq, Drop)]
pub struct Candidate {
    pub container: u64,
    pub order: u64,
    /// The ticket of the order.
    pub ticket: u64,
    /// The location of the container, or the empty text.
    pub location: Text,
    /// The text that is written on it.
    pub name: Text,
    /// The kind of the container, or the empty text.
    pub kind: Text,
}

/// What a run of at most `max` containers takes: those with the lowest order numbers, in the order of these numbers.
pub fn pick_run(
    alloc: Global,
    candidates: &[Candidate],
    max: u32,
) -> Result<Vec<Candidate>, AllocError>
    ensures { IfOk result (λ run. run.items ≡ run_of candidates.now max) }
{
    let mut queue: Vec<&Candidate> = candidates.iter().collect(alloc)?;
    queue.sort_by_key(|candidate| candidate.order)?;
    queue.truncate(max as usize);
    let mut run = Vec::new(alloc);
    for candidate in &queue {
        run.push((*candidate).clone()?)?;
    }
    Ok(run)
}

/// The containers at the desk that no order waits for, ascending. `desk` has each container at the desk, in any order,
/// with whether an order waits for it.
pub fn pick_reshelve(alloc: Global, desk: &[(Number, bool)]) -> Result<Vec<Number>, AllocError>
    ensures { IfOk result (λ containers. containers.items ≡ reshelved_containers desk.now) }
{
    let mut idle = not_waited_for(alloc, desk)?;
    idle.sort_unstable();
    Ok(idle)
}

fn not_waited_for(alloc: Global, desk: &[(Number, bool)]) -> Result<Vec<Number>, AllocError>
    ensures { IfOk result (λ containers. containers.items ≡ idle_containers desk.now) }
{
    desk.iter()
        .filter(|container| !container.1)
        .map(|container| container.0)
        .collect(alloc)
}
