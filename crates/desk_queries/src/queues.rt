//! Where a container is, and who waits for it.

ghost use Rattle.std.specs.Prelude.{◌≡◌, option_map, IfOk};
ghost use Rattle.serde_json.specs.View.{view};
ghost use Rattle.serde_json.specs.Written.{compact_text};
ghost use Rattle.office_core.specs.Json.{count, or_null};
ghost use Rattle.office_core.specs.Queries.{place_name};
ghost use Rattle.desk_core.specs.Decisions.{order_out};
ghost use Rattle.office_core.specs.declared.query.Query.TheVariants as query;
ghost use Rattle.refinement.specs.QueryAnswers.{Responds};
ghost use Rattle.desk_queries.specs.JsonValues.{queue_data};

use crate::json_values::{Told, values_of};
use catalogue_store::Places;
use desk_core::{Place, known_container};
use desk_store::{ContainerQueue, WaitingOrder};
use isad_core::{List, Number};
use office_core::Answer;
use office_tables::{StoreFault, Tables};
use replies::text_of;
use serde_json::{Value, json};
use sqlite::Alter;
use std::alloc::{AllocError, Global};

impl Told for WaitingOrder {
    ghost use Rattle.desk_queries.specs.JsonValues.{waiting_data};

    ghost told = { waiting_data };

    fn value(&self, alloc: Global) -> Result<Value, AllocError> {
        json!(in alloc; {"order": self.order.get(), "ticket": self.ticket.get()})
    }
}

/// The order that a container is out with, or null if it is not out.
fn out_value(place: Place) -> Value
    ensures { view result ≡ or_null (option_map count (order_out place)) }
{
    match place {
        Place::Out(order) => Value::from(order.get()),
        _ => Value::Null,
    }
}

/// The name of a place.
fn name_of(place: Place) -> &'static str
    ensures { result.now ≡ place_name place }
{
    match place {
        Place::Shelf => "shelf",
        Place::Desk => "desk",
        Place::Out(_) => "out",
    }
}

/// The JSON object of a container: its name, where it is, and who waits for it.
fn queue_value(alloc: Global, container: u64, queue: &ContainerQueue) -> Result<Value, AllocError>
    ensures { IfOk result (λ v. view v ≡ queue_data container queue.now) }
{
    let waiting = values_of(alloc, queue.waiting.as_slice())?;
    let out = out_value(queue.place);
    let place = name_of(queue.place);
    let name = queue.name.as_str();
    json!(in alloc; {
        "container": container,
        "name": name,
        "out": out,
        "place": place,
        "waiting": waiting
    })
}

/// The bytes of that object.
fn queue_text(alloc: Global, container: u64, queue: &ContainerQueue) -> Result<List<u8>, AllocError>
    ensures { IfOk result (λ text. text ≡ compact_text (queue_data container queue.now)) }
{
    let value = queue_value(alloc, container, queue)?;
    text_of(alloc, &value)
}

/// A container's name and place, the order that it is out with, and the orders that wait for it, the oldest first, as
/// JSON. The answer is `Unknown` if the container is not known.
pub fn queue<P: Places, S: Alter>(
    alloc: Global,
    tables: &mut Tables<P, S>,
    container: Number,
) -> Result<Answer, StoreFault>
    ensures { Responds P.represents P.version S.Store (query.Queue container) tables.old tables.new result }
{
    let found = desk_store::queue(alloc, tables, container)?;
    let queue = match known_container(found) {
        Ok(queue) => queue,
        Err(why) => return Ok(Answer::Unknown(why)),
    };
    let text = queue_text(alloc, container.get(), &queue)?;
    Ok(Answer::Json(text))
}
