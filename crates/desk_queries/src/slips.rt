//! The slip of a run.

ghost use Rattle.office_core.specs.declared.query.Query.TheVariants as query;
ghost use Rattle.refinement.specs.QueryAnswers.{Responds};

use catalogue_store::Places;
use desk_core::slip_text;
use isad_core::{List, Number};
use office_core::{Answer, Refusal};
use office_tables::{StoreFault, Tables};
use sqlite::Alter;
use std::alloc::Global;

/// The slip of a run: its number and its day, and a line for each container that it brought, in order of location, name
/// and kind, then of number. The answer is `Unknown` if there was no such run.
pub fn run_slip<P: Places, S: Alter>(
    alloc: Global,
    tables: &mut Tables<P, S>,
    run: Number,
) -> Result<Answer, StoreFault>
    ensures { Responds P.represents P.version S.Store (query.RunSlip run) tables.old tables.new result }
{
    let Some(brought) = desk_store::run(alloc, tables, run)? else {
        return Ok(Answer::Unknown(Refusal::UnknownRun));
    };
    let text = slip_text(alloc, run.get(), brought.day, brought.lines.as_slice())?;
    Ok(Answer::Text(List(text)))
}
