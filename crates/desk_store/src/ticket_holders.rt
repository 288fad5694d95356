//! The reader who has a ticket.

ghost use Rattle.std.specs.Prelude.{◌≡◌};
ghost use Rattle.office_tables.specs.Calls.{StoreAnswers};
ghost use Rattle.office_tables.specs.Premises.{◌within◌gives◌};
ghost use Rattle.desk_store.specs.Readers.{ticket_holder};
ghost use Rattle.desk_store.specs.Representation.{RepresentsDeskAlone, IsLegible};

use crate::reader_summary::{count_out, lines_out, seat_in};
use crate::readers::find_reader;
use crate::taken_seats::find_seat;
use desk_core::Reader;
use isad_core::Number;
use office_tables::{StoreFault, Tables, Versioned};
use sqlite::Alter;
use std::alloc::Global;

/// The reader who has a ticket, with the last day of the ticket, his seat, and how many containers are out with him;
/// none if the ticket was not given. If a row is not legible, it may fail with `Schema`.
pub fn ticket_holder<P: Versioned, S: Alter>(
    alloc: Global,
    tables: &mut Tables<P, S>,
    ticket: Number,
) -> Result<Option<Reader>, StoreFault>
    ensures answers { StoreAnswers S.Store RepresentsDeskAlone tables.old tables.new result
        within IsLegible gives λ _ d holder. holder ≡ ticket_holder ticket d }
{
    let Some(row) = find_reader(alloc, tables, ticket)? else {
        return Ok(None);
    };
    let taken = find_seat(alloc, tables, ticket)?;
    let lines = lines_out(alloc, tables, ticket)?;
    Ok(Some(Reader {
        ticket: ticket.get(),
        until: row.until,
        seat: seat_in(taken),
        held: count_out(&lines),
    }))
}
