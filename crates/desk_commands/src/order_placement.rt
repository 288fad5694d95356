//! Ordering containers.

ghost use Rattle.std.specs.Prelude.{◌≡◌, nat_eq};
ghost use Rattle.std.specs.List.{list_any};
ghost use Rattle.catalogue_core.specs.UnitMarks.{AreWalkMarks};
ghost use Rattle.desk_store.specs.declared.reader_summary.LiveOrder.{LiveOrder as Live};
ghost use Rattle.office_core.specs.State.{opens};
ghost use Rattle.office_core.specs.declared.command.Command.TheVariants as command;
ghost use Rattle.refinement.specs.ReadingRoomLimits.{limits_of};
ghost use Rattle.desk_commands.specs.OrderPlacement.{IsCardOf, MayPlaceOrder, ask_of};
ghost use Rattle.desk_commands.specs.SparedCatalogue.{PerformsSparing};

use access::is_open_today;
use catalogue_store::Places;
use desk_core::{Ask, Limits, may_order};
use desk_store::{LiveOrder, ReaderCard, append_order, reader};
use isad_core::{Day, Number};
use known_forest::KnownForest;
use office_core::{Done, Refusal};
use office_tables::{StoreFault, Tables};
use sqlite::Alter;
use std::alloc::Global;

/// Whether one of these orders is for the container.
fn is_for_one(live: &[LiveOrder], container: Number) -> bool
    ensures { result ≡ list_any (λ (order : Live). nat_eq container order.container) live.now }
{
    live.iter().any(|order| container == order.container)
}

/// The facts that decide on an order for the container, besides the reader.
fn ask(card: &ReaderCard, container: Number, is_open: bool) -> Ask
    ensures { result ≡ ask_of card.now container is_open }
{
    Ask {
        is_open,
        already: is_for_one(card.live.as_slice(), container),
        placed: card.placed,
        orders: u64::from(card.orders),
    }
}

/// Places an order that is known to be allowed, under the number after the last.
fn append<P: Places, S: Alter>(
    tables: &mut Tables<P, S>,
    today: Day,
    ticket: Number,
    container: Number,
    order: Number,
) -> Result<Result<Done, Refusal>, StoreFault>
    ensures { PerformsSparing P.represents P.version S.Store (λ s. MayPlaceOrder s ticket container order today)
        (command.Order ticket container) tables.old tables.new result }
{
    append_order(tables, order, ticket, container, today)?;
    Ok(Ok(Done::Order { order: order.get() }))
}

/// Places an order if the reader may place it. `is_open` is whether the container is open to the reader.
fn decide<P: Places, S: Alter>(
    tables: &mut Tables<P, S>,
    today: Day,
    limits: &Limits,
    card: &ReaderCard,
    ticket: Number,
    container: Number,
    is_open: bool,
) -> Result<Result<Done, Refusal>, StoreFault>
    ensures { PerformsSparing P.represents P.version S.Store
        (λ s. (today ≡ s.day) × (limits.now ≡ limits_of s) × IsCardOf P.version s ticket card.now
        × (is_open ≡ opens s ticket container)) (command.Order ticket container) tables.old tables.new result }
{
    match may_order(
        Some(&card.reader),
        today,
        &ask(card, container, is_open),
        limits,
    ) {
        Ok(()) => append(
            tables,
            today,
            ticket,
            container,
            Number::from(card.orders + 1),
        ),
        Err(why) => Ok(Err(why)),
    }
}

/// Places an order of the reader with this card, if the reader may place it. `known` must be the marks of all units.
fn order_by<P: Places, S: Alter>(
    alloc: Global,
    tables: &mut Tables<P, S>,
    known: &KnownForest,
    today: Day,
    limits: &Limits,
    card: &ReaderCard,
    ticket: Number,
    container: Number,
) -> Result<Result<Done, Refusal>, StoreFault>
    ensures { PerformsSparing P.represents P.version S.Store
        (λ s. (today ≡ s.day) × (limits.now ≡ limits_of s) × IsCardOf P.version s ticket card.now
        × AreWalkMarks s.catalogue.forest known.now)
        (command.Order ticket container) tables.old tables.new result }
{
    let is_open = is_open_today(alloc, tables, known, container, ticket, today)?;
    decide(tables, today, limits, card, ticket, container, is_open)
}

/// Orders a container for a ticket, and tells the order's number. The ticket must be valid, and the container known and
/// open to its reader: one that is not known is refused as not open. No order of the ticket for it may wait or be out.
/// The ticket's orders of the day, cancelled ones too, and all orders so far must be below their limits. Otherwise the
/// command is refused. After a refusal the caller must roll the transaction back. `today` and `limits` must be the
/// office's, and `known` the marks of all its units.
pub fn order<P: Places, S: Alter>(
    alloc: Global,
    tables: &mut Tables<P, S>,
    known: &KnownForest,
    today: Day,
    limits: &Limits,
    ticket: Number,
    container: Number,
) -> Result<Result<Done, Refusal>, StoreFault>
    ensures { PerformsSparing P.represents P.version S.Store
        (λ s. (today ≡ s.day) × (limits.now ≡ limits_of s) × AreWalkMarks s.catalogue.forest known.now)
        (command.Order ticket container) tables.old tables.new result }
{
    let Some(card) = reader(alloc, tables, ticket, today)? else {
        return Ok(Err(Refusal::UnknownTicket));
    };
    order_by(
        alloc, tables, known, today, limits, &card, ticket, container,
    )
}
