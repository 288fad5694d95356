//! Opening a new day.

ghost use Rattle.std.specs.Prelude.{◌≡◌, false, int_lt, true};
ghost use Rattle.std.specs.List.{list_any};
ghost use Rattle.office_core.specs.State.{containers, is_out};
ghost use Rattle.office_core.specs.declared.command.Command.TheVariants as command;
ghost use Rattle.desk_commands.specs.SparedCatalogue.{PerformsSparing};

use crate::emptiness::are_none;
use catalogue_store::Places;
use desk_store::{issued, open_day};
use isad_core::Day;
use office_core::{Done, Refusal};
use office_tables::{StoreFault, Tables};
use sqlite::Alter;
use std::alloc::Global;

/// Opens a day that is known to be later. Nothing is out.
fn begin_day<P: Places, S: Alter>(
    tables: &mut Tables<P, S>,
    day: Day,
) -> Result<Result<Done, Refusal>, StoreFault>
    ensures { PerformsSparing P.represents P.version S.Store
        (λ s. (int_lt s.day day ≡ true) × (list_any (is_out s) (containers s) ≡ false)) (command.OpenDay day)
        tables.old tables.new result }
{
    open_day(tables, day)?;
    Ok(Ok(Done::OpenDay { day }))
}

/// Opens a day, which must be later than the office's, and frees every seat. Tells the day. The command is refused if a
/// container is out. After a refusal the caller must roll the transaction back.
pub fn open<P: Places, S: Alter>(
    alloc: Global,
    tables: &mut Tables<P, S>,
    day: Day,
) -> Result<Result<Done, Refusal>, StoreFault>
    ensures { PerformsSparing P.represents P.version S.Store (λ s. int_lt s.day day ≡ true) (command.OpenDay day)
        tables.old tables.new result }
{
    let loans = issued(alloc, tables)?;
    if !are_none(&loans) {
        return Ok(Err(Refusal::StillIssued));
    }
    begin_day(tables, day)
}
