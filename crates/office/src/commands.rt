//! Commands: each is one transaction and one step. Who may have which container is decided from marks in memory.

ghost use Rattle.std.specs.Prelude.{◌≡◌, None, false, true, IfErr, IfOk, OnOk, option_copied};
ghost use Rattle.sqlite.specs.Held.{state};
ghost use Rattle.sqlite.specs.State.{HasCleanDisk};
ghost use Rattle.office_core.specs.Json.{reply_text};
ghost use Rattle.office_core.specs.SoundOffice.{NamesTexts};
ghost use Rattle.office_core.specs.Soundness.{NamesDays};
ghost use Rattle.office_tables.specs.Step.{OnlyTouches};
ghost use Rattle.office_tables.specs.declared.fault.StoreFault.TheVariants as fault;
ghost use Rattle.office.specs.CallTransactions.{Applies, Replies};
ghost use Rattle.office.specs.IdleOffice.{IsOffice};
ghost use Rattle.office.specs.KeptMarks.{AreSoundIf, AreKept, AreOfLent, AreOfTables, KnowsKept};
ghost use Rattle.office.specs.KeptMarks.{asks_access as asks_who_may_see};
ghost use Rattle.office.specs.NamedNumbers.{of_named};
ghost use Rattle.office.specs.Sight.{day_check, name_check};
ghost use Rattle.desk_commands.specs.SparedCatalogue.{reading_room_trees, spares_catalogue};
ghost use Rattle.public_queries.specs.KnownPaths.{RepresentsKnown};
ghost use Rattle.refinement.specs.CommandSteps.{Performs, PerformsKnowing};
ghost use Rattle.refinement.specs.Representation.{office_of};

use crate::kept_marks::{asks_access, follow, kept_or_read};
use crate::named_numbers::named;
use crate::names::{refused_by_day, refused_by_name};
use crate::office_row::{limits_in, own_row};
use crate::transactions::settle;
use catalogue_commands::{change_closure, change_status, move_to, remove_unit};
use catalogue_statements::OfficeRow;
use catalogue_store::Places;
use csv_import::import;
use desk_commands::{
    cancel, fetch, issue, leave_seat, open, order, permit, register, renew_ticket, reshelve,
    return_container, revoke_permit, take_seat,
};
use known_forest::KnownForest;
use office_core::{Command, Done, Refusal, Reply};
use office_tables::{Closed, StoreFault, Tables};
use replies::json_of;
use sqlite::Alter;
use std::alloc::Global;

/// Carries out a command that asks who may have which container, from the marks of all units and the tables.
fn perform_knowing<P: Places, S: Alter>(
    alloc: Global,
    tables: &mut Tables<P, S>,
    row: &OfficeRow,
    forest: &KnownForest,
    command: &Command,
) -> Result<Result<Done, Refusal>, StoreFault>
    requires asks { asks_who_may_see command.now ≡ true }
    ensures performs { PerformsKnowing P.represents P.version S.Store (RepresentsKnown row.now forest.now)
        (of_named command.now) tables.old tables.new result }
    ensures only { HasCleanDisk (state S.Store tables.new)
        → OnOk result (OnlyTouches reading_room_trees (state S.Store tables.old).now (state S.Store tables.new).now) }
{
    let today = row.day;
    let limits = limits_in(row);
    match command {
        Command::Order { ticket, container } => {
            order(
                alloc,
                tables,
                forest,
                today,
                &limits,
                named(*ticket),
                named(*container),
            )
        }
        Command::Run => fetch(alloc, tables, forest, today, &limits),
        Command::Issue { container, ticket } => {
            issue(
                alloc,
                tables,
                forest,
                today,
                &limits,
                named(*container),
                named(*ticket),
            )
        }
        Command::Revoke { ticket, unit } => {
            revoke_permit(alloc, tables, forest, today, named(*ticket), named(*unit))
        }
        _ => Err(StoreFault::Schema),
    }
}

/// The same. The marks that are kept must be those of the tables. If none are kept, they are read first, and kept.
fn perform_keeping<P: Places, S: Alter>(
    alloc: Global,
    tables: &mut Tables<P, S>,
    row: &OfficeRow,
    kept: &mut Option<KnownForest>,
    command: &Command,
) -> Result<Result<Done, Refusal>, StoreFault>
    requires asks { asks_who_may_see command.now ≡ true }
    requires marks { AreOfLent P.represents P.version (state S.Store tables.old) kept.old }
    ensures performs { PerformsKnowing P.represents P.version S.Store (λ s. row.now ≡ office_of s)
        (of_named command.now) tables.old tables.new result }
    ensures only { HasCleanDisk (state S.Store tables.new)
        → OnOk result (OnlyTouches reading_room_trees (state S.Store tables.old).now (state S.Store tables.new).now) }
    ensures stays { HasCleanDisk (state S.Store tables.new)
        → AreOfTables P.represents P.version (state S.Store tables.old).now kept.old
        → AreOfTables P.represents P.version (state S.Store tables.old).now kept.new }
{
    let forest = kept_or_read(alloc, tables, kept.take())?;
    let done = perform_knowing(alloc, tables, row, &forest, command);
    *kept = Some(forest);
    done
}

/// Carries out another command whose names and day were checked. The marks that are kept must be those of the tables.
fn perform<P: Places, S: Alter>(
    alloc: Global,
    tables: &mut Tables<P, S>,
    row: &OfficeRow,
    kept: Option<&KnownForest>,
    command: &Command,
) -> Result<Result<Done, Refusal>, StoreFault>
    requires asks { asks_who_may_see command.now ≡ false }
    requires named { name_check command.now ≡ None }
    requires dated { day_check row.now.day command.now ≡ None }
    requires texts { NamesTexts command.now }
    ensures performs { PerformsKnowing P.represents P.version S.Store (KnowsKept row.now (option_copied kept.entry))
        (of_named command.now) tables.old tables.new result }
    ensures only { spares_catalogue (of_named command.now) ≡ true → HasCleanDisk (state S.Store tables.new)
        → OnOk result (OnlyTouches reading_room_trees (state S.Store tables.old).now (state S.Store tables.new).now) }
{
    let today = row.day;
    let limits = limits_in(row);
    match command {
        Command::OpenDay { day } => open(alloc, tables, *day),
        Command::Import { source, file } => {
            import(alloc, tables, today, source, file.as_slice())
        }
        Command::SetStatus {
            unit,
            draft,
            branch,
        } => change_status(alloc, tables, kept, today, named(*unit), *draft, *branch),
        Command::SetClosure { unit, until } => {
            change_closure(alloc, tables, kept, today, named(*unit), *until)
        }
        Command::Move { unit, parent } => move_to(
            alloc,
            tables,
            today,
            named(*unit),
            parent.map(named),
        ),
        Command::Remove { unit } => remove_unit(alloc, tables, today, named(*unit)),
        Command::Register { name, until } => register(tables, name, *until),
        Command::Renew { ticket, until } => renew_ticket(alloc, tables, named(*ticket), *until),
        Command::TakeSeat { ticket } => take_seat(alloc, tables, today, &limits, named(*ticket)),
        Command::LeaveSeat { ticket } => leave_seat(alloc, tables, named(*ticket)),
        Command::Cancel { order } => cancel(alloc, tables, named(*order)),
        Command::Reshelve => reshelve(alloc, tables),
        Command::Return { container } => return_container(alloc, tables, named(*container)),
        Command::Permit {
            ticket,
            unit,
            until,
        } => permit(alloc, tables, named(*ticket), named(*unit), *until),
        Command::Order { .. } | Command::Run | Command::Issue { .. } | Command::Revoke { .. } => {
            Err(StoreFault::Schema)
        }
    }
}

/// Carries out a command on the day of the office, within its settings. The marks that are kept must be those of the
/// tables.
fn carry_out<P: Places, S: Alter>(
    alloc: Global,
    tables: &mut Tables<P, S>,
    kept: &mut Option<KnownForest>,
    command: &Command,
) -> Result<Result<Done, Refusal>, StoreFault>
    requires named { name_check command.now ≡ None }
    requires texts { NamesTexts command.now }
    requires marks { AreOfLent P.represents P.version (state S.Store tables.old) kept.old }
    ensures performs { Performs P.represents P.version S.Store command.now tables.old tables.new result }
    ensures only { spares_catalogue command.now ≡ true → HasCleanDisk (state S.Store tables.new)
        → OnOk result (OnlyTouches reading_room_trees (state S.Store tables.old).now (state S.Store tables.new).now) }
    ensures stays { HasCleanDisk (state S.Store tables.new)
        → AreOfTables P.represents P.version (state S.Store tables.old).now kept.old
        → AreOfTables P.represents P.version (state S.Store tables.old).now kept.new }
{
    let row = own_row(alloc, tables)?;
    if let Some(why) = refused_by_day(row.day, command) {
        return Ok(Err(why));
    }
    if asks_access(command) {
        return perform_keeping(alloc, tables, &row, kept, command);
    }
    perform(alloc, tables, &row, kept.as_ref(), command)
}

/// The reply to a command, with its bytes.
fn reply_of(alloc: Global, done: Result<Done, Refusal>) -> Result<Reply, StoreFault>
    ensures same { IfOk result (λ reply. reply.done ≡ done) }
    ensures bytes { IfOk result (λ reply. reply.json ≡ reply_text done) }
    ensures memory { IfErr result (λ e. e ≡ fault.Memory) }
{
    let json = json_of(alloc, &done)?;
    Ok(Reply { done, json })
}

/// Carries out a command, and makes the bytes of the reply. The marks that are kept must be those of the tables.
fn reply_to<P: Places, S: Alter>(
    alloc: Global,
    tables: &mut Tables<P, S>,
    kept: &mut Option<KnownForest>,
    command: &Command,
) -> Result<Reply, StoreFault>
    requires named { name_check command.now ≡ None }
    requires texts { NamesTexts command.now }
    requires marks { AreOfLent P.represents P.version (state S.Store tables.old) kept.old }
    ensures replies { Replies P.represents P.version S.Store tables.old tables.new command.now result }
    ensures stays { HasCleanDisk (state S.Store tables.new)
        → AreOfTables P.represents P.version (state S.Store tables.old).now kept.old
        → AreOfTables P.represents P.version (state S.Store tables.old).now kept.new }
{
    let done = carry_out(alloc, tables, kept, command)?;
    reply_of(alloc, done)
}

/// Carries out a command in a transaction of its own, which is committed if the command is accepted, and rolled back
/// after a refusal or a fault. The reply's bytes are made before the commit. A malformed name is refused before any
/// statement. The marks that are kept must be those of the tables; afterwards they are those of the tables before.
fn apply_to<P: Places, S: Alter>(
    alloc: Global,
    closed: &mut Closed<P, S>,
    kept: &mut Option<KnownForest>,
    command: &Command,
) -> Result<Reply, StoreFault>
    requires office { IsOffice P.version (state S.Store closed.old) }
    requires texts { NamesTexts command.now }
    requires marks { AreKept P.represents P.version (state S.Store closed.old) kept.old }
    ensures applies { Applies P.represents P.version S.Store closed.old closed.new command.now result }
    ensures stays { HasCleanDisk (state S.Store closed.new)
        → AreKept P.represents P.version (state S.Store closed.old) kept.new }
{
    if let Some(why) = refused_by_name(command) {
        return reply_of(alloc, Err(why));
    }
    let tables = closed.begin()?;
    let outcome = reply_to(alloc, tables, kept, command);
    settle(closed, outcome)
}

/// The same. The marks that are kept must be those of the tables, and are so afterwards: with a status and a closure they
/// are changed, and let go if another command was accepted that may have changed the catalogue. They are let go also if
/// it is not known that the tables are a sound office's.
pub(crate) fn apply_keeping<P: Places, S: Alter>(
    alloc: Global,
    closed: &mut Closed<P, S>,
    kept: &mut Option<KnownForest>,
    is_sound: bool,
    command: &Command,
) -> Result<Reply, StoreFault>
    requires office { IsOffice P.version (state S.Store closed.old) }
    requires days { NamesDays command.now }
    requires texts { NamesTexts command.now }
    requires marks { AreKept P.represents P.version (state S.Store closed.old) kept.old }
    requires known { AreSoundIf is_sound P.represents P.version (state S.Store closed.old) }
    ensures applies { Applies P.represents P.version S.Store closed.old closed.new command.now result }
    ensures marks { AreKept P.represents P.version (state S.Store closed.new) kept.new }
    ensures known { AreSoundIf is_sound P.represents P.version (state S.Store closed.new) }
{
    let outcome = apply_to(alloc, closed, kept, command);
    follow(kept, is_sound, command, &outcome);
    outcome
}
