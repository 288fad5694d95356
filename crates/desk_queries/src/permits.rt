//! The permits of a ticket.

ghost use Rattle.office_core.specs.declared.query.Query.TheVariants as query;
ghost use Rattle.refinement.specs.QueryAnswers.{Responds};

use crate::json_values::{Told, list_text};
use catalogue_store::Places;
use desk_store::{Permit, is_registered, permits};
use isad_core::Number;
use office_core::{Answer, Refusal};
use office_tables::{StoreFault, Tables};
use replies::day_value;
use serde_json::{Value, json};
use sqlite::Alter;
use std::alloc::{AllocError, Global};

impl Told for Permit {
    ghost use Rattle.desk_queries.specs.JsonValues.{permit_data};

    ghost told = { permit_data };

    fn value(&self, alloc: Global) -> Result<Value, AllocError> {
        let until = day_value(alloc, self.until)?;
        json!(in alloc; {"unit": self.unit.get(), "until": until})
    }
}

/// The permits of a ticket, in order of unit, as JSON. The answer is `Unknown` if the ticket was not given.
pub fn reader_permits<P: Places, S: Alter>(
    alloc: Global,
    tables: &mut Tables<P, S>,
    ticket: Number,
) -> Result<Answer, StoreFault>
    ensures { Responds P.represents P.version S.Store (query.ReaderPermits ticket) tables.old tables.new result }
{
    let known = is_registered(alloc, tables, ticket)?;
    if !known {
        return Ok(Answer::Unknown(Refusal::UnknownTicket));
    }
    let granted = permits(alloc, tables, ticket)?;
    let text = list_text(alloc, &granted)?;
    Ok(Answer::Json(text))
}
