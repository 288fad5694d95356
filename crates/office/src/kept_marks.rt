//! The marks of all units, which an office keeps in memory once a question or a command needed them, and changes with
//! the units.

ghost use Rattle.std.specs.Prelude.{◌≡◌, true};
ghost use Rattle.catalogue_core.specs.Bounds.{IsKept};
ghost use Rattle.catalogue_core.specs.UnitMarks.{AreWalkMarks};
ghost use Rattle.office_tables.specs.Calls.{Answers};
ghost use Rattle.office_tables.specs.Premises.{◌within◌gives◌};
ghost use Rattle.catalogue_statements.specs.Representation.{Represents};
ghost use Rattle.desk_commands.specs.SparedCatalogue.{spares_catalogue};
ghost use Rattle.catalogue_core.specs.CatalogueMerge.{Catalogue};
ghost use Rattle.catalogue_core.specs.Statuses.{chosen, with_closure, with_status};
ghost use Rattle.known_units.specs.KnownUnits.{KnowsIf, TellOf};
ghost use Rattle.office.specs.KeptMarks.{Follows, FollowsChange, asks_access as asks_who_may_see};

use crate::named_numbers::named;
use access::all_marks;
use catalogue_store::Places;
use isad_core::{Day, Number};
use known_forest::KnownForest;
use known_units::{set_closure, set_status};
use office_core::{Command, Reply};
use office_tables::{StoreFault, Tables};
use sqlite::Alter;
use std::alloc::Global;

/// The marks that were kept, or if there are none, those that the tables have.
pub(crate) fn kept_or_read<P: Places, S: Alter>(
    alloc: Global,
    tables: &mut Tables<P, S>,
    kept: Option<KnownForest>,
) -> Result<KnownForest, StoreFault>
    ensures answers { Answers S.Store (Represents P.represents P.version) tables.old tables.new result
        within IsKept gives λ _ c forest. TellOf c kept → AreWalkMarks c.forest forest }
{
    match kept {
        Some(forest) => Ok(forest),
        None => all_marks(alloc, tables),
    }
}

/// Whether a command asks who may have which container. The marks of all units decide it.
pub(crate) fn asks_access(command: &Command) -> bool
    ensures { result ≡ asks_who_may_see command.now }
{
    matches!(
        command,
        Command::Order { .. } | Command::Run | Command::Issue { .. } | Command::Revoke { .. }
    )
}

/// Whether a command leaves the tables of the catalogue and the office's own row as they are.
fn spares(command: &Command) -> bool
    ensures { result ≡ spares_catalogue command.now }
{
    match command {
        Command::OpenDay { .. }
        | Command::Import { .. }
        | Command::SetStatus { .. }
        | Command::SetClosure { .. }
        | Command::Move { .. }
        | Command::Remove { .. } => false,
        _ => true,
    }
}

/// Changes the marks, if there are any, as a status changed the units.
fn follow_status(kept: &mut Option<KnownForest>, unit: Number, draft: bool, whole: bool)
    ensures { (c : Catalogue) → KnowsIf c kept.old → KnowsIf (with_status (chosen whole unit c) draft c) kept.new }
{
    if let Some(mut forest) = kept.take() {
        set_status(&mut forest, unit, draft, whole);
        *kept = Some(forest);
    }
}

/// Changes the marks, if there are any, as a closure changed the unit.
fn follow_closure(kept: &mut Option<KnownForest>, unit: Number, until: Option<Day>)
    ensures { (c : Catalogue) → KnowsIf c kept.old → KnowsIf (with_closure unit until c) kept.new }
{
    if let Some(mut forest) = kept.take() {
        set_closure(&mut forest, unit, until);
        *kept = Some(forest);
    }
}

/// Changes the marks as an accepted command changed the units, or lets them go.
fn follow_change(kept: &mut Option<KnownForest>, command: &Command)
    ensures { FollowsChange true command.now kept.old kept.new }
{
    match command {
        Command::SetStatus {
            unit,
            draft,
            branch,
        } => follow_status(kept, named(*unit), *draft, *branch),
        Command::SetClosure { unit, until } => follow_closure(kept, named(*unit), *until),
        _ => *kept = None,
    }
}

/// Brings the marks up to a command that was accepted: they are changed as the units were, or let go. If it is not
/// known that the tables are a sound office's, they are let go.
pub(crate) fn follow(
    kept: &mut Option<KnownForest>,
    is_sound: bool,
    command: &Command,
    outcome: &Result<Reply, StoreFault>,
)
    ensures { Follows is_sound command.now outcome.now kept.old kept.new }
{
    let Ok(reply) = outcome else {
        return;
    };
    if reply.done.is_err() || spares(command) {
        return;
    }
    if is_sound {
        follow_change(kept, command);
    } else {
        *kept = None;
    }
}
