//! Issuing a container to a reader.

ghost use Rattle.std.specs.Prelude.{◌≡◌, None, Some, IfOk, option_map};
ghost use Rattle.std.specs.Result.{result_err};
ghost use Rattle.catalogue_core.specs.UnitMarks.{AreWalkMarks};
ghost use Rattle.desk_core.specs.Checks.{issue_checks};
ghost use Rattle.desk_core.specs.Decisions.{issue_facts};
ghost use Rattle.desk_core.specs.Refusals.{first_that_holds};
ghost use Rattle.desk_store.specs.declared.orders.WaitingOrder.{WaitingOrder as Waiter};
ghost use Rattle.office_core.specs.Rules.{refusal};
ghost use Rattle.office_core.specs.Words.{first as first_of};
ghost use Rattle.office_core.specs.declared.command.Command.TheVariants as command;
ghost use Rattle.refinement.specs.ReadingRoomLimits.{limits_of};
ghost use Rattle.desk_commands.specs.Issuance.{IsQueuedFor, asked_for};
ghost use Rattle.desk_commands.specs.SparedCatalogue.{PerformsSparing};

use crate::container_moves::hand_over;
use access::is_open_today;
use catalogue_store::Places;
use desk_core::{AtDesk, Limits, Place, Reader, known_container, may_issue};
use desk_store::{OrderState, QueueHead, WaitingOrder, queue_head, ticket_holder};
use isad_core::{Day, Number};
use known_forest::KnownForest;
use office_core::{Done, Refusal};
use office_tables::{StoreFault, Tables};
use sqlite::Alter;
use std::alloc::Global;

/// The ticket of the order, or none if there is no order.
fn ticket_of(first: Option<WaitingOrder>) -> Option<u64>
    ensures { result ≡ option_map (λ (w : Waiter). w.ticket) first }
{
    first.map(|first| first.ticket.get())
}

/// The order with which a container that is known may be issued to the ticket, or why it may not be issued. `head` is
/// the head of its queue.
fn decide(
    head: QueueHead,
    is_open: bool,
    ticket: Number,
    who: Option<Reader>,
    today: Day,
    limits: &Limits,
) -> Result<Number, Refusal>
    ensures refused { result_err result
        ≡ first_that_holds (issue_checks
        (issue_facts (Some (asked_for head.place head.first is_open)) ticket who today limits.now)) }
    ensures order { IfOk result (λ order. option_map (λ (w : Waiter). w.order) head.first ≡ Some order) }
{
    let asked = AtDesk {
        place: head.place,
        head: ticket_of(head.first),
        is_open,
    };
    may_issue(&asked, ticket.get(), who.as_ref(), today, limits)?;
    match head.first {
        Some(first) => Ok(first.order),
        None => Err(Refusal::NotFirst),
    }
}

/// Issues a container with the first order that waits for it. The caller knows that no rule forbids this.
fn lend<P: Places, S: Alter>(
    tables: &mut Tables<P, S>,
    container: Number,
    ticket: Number,
    order: Number,
) -> Result<Result<Done, Refusal>, StoreFault>
    ensures { PerformsSparing P.represents P.version S.Store
        (λ s. (refusal s (command.Issue container ticket) ≡ None) × (first_of (s.queue container) ≡ Some order))
        (command.Issue container ticket) tables.old tables.new result }
{
    hand_over(tables, container, Place::Out(order), order, OrderState::Out)?;
    Ok(Ok(Done::Issue { order: order.get() }))
}

/// Issues a container to a reader if no rule forbids it. The container is known, and `head` is the head of its queue.
/// `known` must be the marks of all units.
fn issue_known<P: Places, S: Alter>(
    alloc: Global,
    tables: &mut Tables<P, S>,
    known: &KnownForest,
    today: Day,
    limits: &Limits,
    container: Number,
    ticket: Number,
    head: QueueHead,
) -> Result<Result<Done, Refusal>, StoreFault>
    ensures { PerformsSparing P.represents P.version S.Store
        (λ s. (today ≡ s.day) × (limits.now ≡ limits_of s) × IsQueuedFor s container head.place head.first
        × AreWalkMarks s.catalogue.forest known.now)
        (command.Issue container ticket) tables.old tables.new result }
{
    let who = ticket_holder(alloc, tables, ticket)?;
    let is_open = is_open_today(alloc, tables, known, container, ticket, today)?;
    match decide(head, is_open, ticket, who, today, limits) {
        Ok(order) => lend(tables, container, ticket, order),
        Err(why) => Ok(Err(why)),
    }
}

/// Issues a container to a reader, and tells the order's number. The container must be at the desk and open to the
/// reader, the reader's order the first in its queue. The reader must have a valid ticket and a seat, and may hold one
/// more container. Otherwise, also if the container is not known, the command is refused, by the first of
/// `issue_checks` that does not hold. After a refusal the caller must roll the transaction back. `today` and `limits`
/// must be the office's, and `known` the marks of all its units.
pub fn issue<P: Places, S: Alter>(
    alloc: Global,
    tables: &mut Tables<P, S>,
    known: &KnownForest,
    today: Day,
    limits: &Limits,
    container: Number,
    ticket: Number,
) -> Result<Result<Done, Refusal>, StoreFault>
    ensures { PerformsSparing P.represents P.version S.Store
        (λ s. (today ≡ s.day) × (limits.now ≡ limits_of s) × AreWalkMarks s.catalogue.forest known.now)
        (command.Issue container ticket) tables.old tables.new result }
{
    let found = queue_head(alloc, tables, container)?;
    match known_container(found) {
        Ok(head) => issue_known(alloc, tables, known, today, limits, container, ticket, head),
        Err(why) => Ok(Err(why)),
    }
}
