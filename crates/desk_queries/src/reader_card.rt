//! A ticket's orders that wait or are out.

ghost use Rattle.std.specs.Prelude.{◌≡◌, cond, codes, option_map, IfOk};
ghost use Rattle.serde_json.specs.View.{view};
ghost use Rattle.serde_json.specs.Written.{compact_text};
ghost use Rattle.sqlite.specs.Held.{state};
ghost use Rattle.office_core.specs.Json.{count, or_null};
ghost use Rattle.office_core.specs.declared.query.Query.TheVariants as query;
ghost use Rattle.refinement.specs.QueryAnswers.{Responds};
ghost use Rattle.desk_queries.specs.JsonValues.{card_data};

use crate::json_values::{Told, values_of};
use catalogue_store::Places;
use desk_store::{LiveOrder, ReaderCard, reader};
use isad_core::{Day, List, Number};
use office_core::{Answer, Refusal};
use office_tables::{StoreFault, Tables};
use replies::{day_value, text_of};
use serde_json::{Value, json};
use sqlite::Alter;
use std::alloc::{AllocError, Global};

/// The name of the state of an order that has not ended.
fn state_name(is_out: bool) -> &'static str
    ensures { result.now ≡ cond is_out (codes "out") (codes "waiting") }
{
    if is_out { "out" } else { "waiting" }
}

impl Told for LiveOrder {
    ghost use Rattle.desk_queries.specs.JsonValues.{live_data};

    ghost told = { live_data };

    fn value(&self, alloc: Global) -> Result<Value, AllocError> {
        let state = state_name(self.is_out);
        json!(in alloc; {"container": self.container.get(), "order": self.order.get(), "state": state})
    }
}

/// The seat of a reader, or null if the reader has none.
fn seat_value(seat: Option<u32>) -> Value
    ensures { view result ≡ or_null (option_map count seat) }
{
    match seat {
        Some(seat) => Value::from(seat),
        None => Value::Null,
    }
}

/// The JSON object of a reader's card.
fn card_value(alloc: Global, card: &ReaderCard) -> Result<Value, AllocError>
    ensures { IfOk result (λ v. view v ≡ card_data card.now) }
{
    let orders = values_of(alloc, card.live.as_slice())?;
    let seat = seat_value(card.reader.seat);
    let until = day_value(alloc, card.reader.until)?;
    let name = card.name.as_str();
    let ticket = card.reader.ticket;
    json!(in alloc; {"name": name, "orders": orders, "seat": seat, "ticket": ticket, "until": until})
}

/// The bytes of that object.
fn card_text(alloc: Global, card: &ReaderCard) -> Result<List<u8>, AllocError>
    ensures { IfOk result (λ text. text ≡ compact_text (card_data card.now)) }
{
    let value = card_value(alloc, card)?;
    text_of(alloc, &value)
}

/// A reader's name, last day and seat, and the orders of the ticket that wait or are out, as JSON. The answer is
/// `Unknown` if the ticket was not given. It does not depend on `today`.
pub fn reader_orders<P: Places, S: Alter>(
    alloc: Global,
    tables: &mut Tables<P, S>,
    today: Day,
    ticket: Number,
) -> Result<Answer, StoreFault>
    ensures { Responds P.represents P.version S.Store (query.ReaderOrders ticket) tables.old tables.new result }
{
    let Some(card) = reader(alloc, tables, ticket, today)? else {
        return Ok(Answer::Unknown(Refusal::UnknownTicket));
    };
    let text = card_text(alloc, &card)?;
    Ok(Answer::Json(text))
}
