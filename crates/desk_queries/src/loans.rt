//! The containers that are with readers.

ghost use Rattle.office_core.specs.declared.query.Query.TheVariants as query;
ghost use Rattle.refinement.specs.QueryAnswers.{Responds};

use crate::json_values::{Told, list_text};
use catalogue_store::Places;
use desk_store::{ContainerOrder, issued};
use office_core::Answer;
use office_tables::{StoreFault, Tables};
use serde_json::{Value, json};
use sqlite::Alter;
use std::alloc::{AllocError, Global};

impl Told for ContainerOrder {
    ghost use Rattle.desk_queries.specs.JsonValues.{loan_data};

    ghost told = { loan_data };

    fn value(&self, alloc: Global) -> Result<Value, AllocError> {
        json!(in alloc; {"container": self.container.get(), "order": self.order.get(), "ticket": self.ticket.get()})
    }
}

/// The containers that are out, by number, each with its order and the ticket of that order, as JSON.
pub fn issued_now<P: Places, S: Alter>(
    alloc: Global,
    tables: &mut Tables<P, S>,
) -> Result<Answer, StoreFault>
    ensures { Responds P.represents P.version S.Store query.IssuedNow tables.old tables.new result }
{
    let loans = issued(alloc, tables)?;
    let text = list_text(alloc, &loans)?;
    Ok(Answer::Json(text))
}
