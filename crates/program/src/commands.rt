//! Performs the task that the words name.
ghost use Rattle.std.specs.Prelude.{◌≡◌, ◌⊎◌, true, false, IfErr, OnOk, map};
ghost use Rattle.std.specs.String.{string_bytes};
ghost use Rattle.sqlite.specs.WalFiles.{image_at};
ghost use Rattle.program.specs.CommandEffects.{CheckDone, CheckFails, Does, Fails, FailsWith, ImportDone, ImportFails};
ghost use Rattle.program.specs.CommandEffects.{InitFails, IsDone, LineFails, ListeningFails, Listens, MigrateDone};
ghost use Rattle.program.specs.CommandEffects.{MigrateFails, ServeDone, ServeFails, TalkDone, TalkFails, channels};
ghost use Rattle.program.specs.CommandEffects.{migrated_line};
ghost use Rattle.program.specs.Connections.{Serves, after_listening};
ghost use Rattle.program.specs.Outcomes.{IsClosedAnd};
ghost use Rattle.program.specs.Stores.{IsMade};
ghost use Rattle.program.specs.Streams.{Prints};

use crate::durable_office::DurableOffice;
use crate::faults::Fault;
use crate::files::{
    Finding, Making, Openings, Outcome, Reading, StoreOutcome, close, file_bytes, find,
};
use crate::imports::{take_in, tell_reply};
use crate::integrity::{judge_file, tell_judgment};
use crate::ports::Port;
use crate::previews::print_preview;
use crate::server::serve;
use crate::sessions::{talk_with, try_office};
use crate::stores::{close_office, make_office, open_office};
use crate::streams::write_whole;
use crate::tasks::Task;
use crate::words::task;
use http_desk::streams::{Sink, Source};
use isad_core::Text;
use office::{Machine, Settings};
use sqlite::{FileFrom, Start};
use sqlite_disk::Disk;
use std::alloc::Global;
use std::io::{Read, Write};

/// Makes a new office in a file.
fn init<S: Start>(making: Making<'_, S>, settings: Settings) -> (Result<(), Fault>, Outcome<S>)
    ensures done { OnOk result.0 (IsClosedAnd result.1
        (IsMade ⟦<FileFrom<S> as Disk>⟧ (image_at S.Start) settings)) }
    ensures fault { IfErr result.0 (InitFails ⟦<FileFrom<S> as Disk>⟧ (image_at S.Start) settings result.1) }
{
    match make_office(making, settings) {
        Ok(office) => (Ok(()), StoreOutcome::Closed(close_office(office))),
        Err((fault, outcome)) => (Err(fault), outcome),
    }
}

/// Imports a file of descriptions into the office in a file. The descriptions are read before the office is opened.
fn import<S: Start, W: Write>(
    alloc: Global,
    reading: Reading<'_>,
    finding: Finding<'_, S>,
    source: Text,
    out: &mut Sink<'_, W>,
) -> (Result<(), Fault>, Outcome<S>)
    ensures done { OnOk result.0 (ImportDone ⟦<FileFrom<S> as Disk>⟧ (image_at S.Start) source
        out.old out.new result.1) }
    ensures fault { IfErr result.0 (ImportFails ⟦<FileFrom<S> as Disk>⟧ (image_at S.Start) source
        out.old out.new result.1) }
{
    let bytes = match file_bytes(reading, alloc) {
        Ok(bytes) => bytes,
        Err(fault) => return (
            Err(Fault::from(fault)),
            StoreOutcome::Untouched(finding.unused()),
        ),
    };
    let mut office = match open_office(alloc, finding) {
        Ok(office) => office,
        Err((fault, outcome)) => return (Err(fault), outcome),
    };
    let taken = take_in(alloc, &mut office, source, bytes);
    let files = close_office(office);
    match taken {
        Ok(reply) => (tell_reply(alloc, reply, out), StoreOutcome::Closed(files)),
        Err(busy) => (Err(busy), StoreOutcome::Closed(files)),
    }
}

/// Answers requests on the office in a file.
fn talk<S: Start, R: Read, W: Write>(
    alloc: Global,
    finding: Finding<'_, S>,
    reader: &mut Source<'_, R>,
    out: &mut Sink<'_, W>,
) -> (Result<(), Fault>, Outcome<S>)
    ensures done { OnOk result.0 (TalkDone ⟦<FileFrom<S> as Disk>⟧ (image_at S.Start)
        reader.old reader.new out.old out.new result.1) }
    ensures fault { IfErr result.0 (TalkFails ⟦<FileFrom<S> as Disk>⟧ (image_at S.Start)
        reader.old reader.new out.old out.new result.1) }
{
    let mut kept = match open_office(alloc, finding) {
        Ok(office) => DurableOffice { office },
        Err((fault, outcome)) => return (Err(fault), outcome),
    };
    let talked = talk_with(alloc, &mut kept, reader, out);
    let DurableOffice { office } = kept;
    (talked, StoreOutcome::Closed(close_office(office)))
}

/// Listens on the port of this number, and prints that it does.
fn listen<P: Port, W: Write>(
    alloc: Global,
    number: u16,
    port: &mut P,
    out: &mut Sink<'_, W>,
) -> Result<(), Fault>
    ensures done { OnOk result (Listens number out.old out.new
        × (P.history port.new ≡ after_listening (P.history port.old) number)) }
    ensures fault { IfErr result (ListeningFails number out.old out.new (P.history port.old) (P.history port.new)) }
{
    if !port.listen(number) {
        return Err(Fault::Net);
    }
    let line = format!(in alloc; "listening {number}\n")?;
    write_whole(out, line.as_bytes())?;
    Ok(())
}

/// Serves an office on the port of this number. Prints that it listens as soon as the port is bound.
fn serve_on_port<P: Port, M: Machine, W: Write>(
    alloc: Global,
    number: u16,
    connections: u32,
    port: &mut P,
    office: &mut M,
    out: &mut Sink<'_, W>,
) -> Result<(), Fault>
    ensures done { OnOk result (Listens number out.old out.new
        × Serves M.represents M.is_intact M.is_open M.recovers connections
        (after_listening (P.history port.old) number) (P.history port.new) office.old office.new true) }
    ensures fault { IfErr result (λ f.
        (ListeningFails number out.old out.new (P.history port.old) (P.history port.new) f
        × Serves M.represents M.is_intact M.is_open M.recovers 0 (P.history port.new) (P.history port.new)
        office.old office.new true)
        ⊎ ((f ≡ Fault.Net) × Listens number out.old out.new
        × Serves M.represents M.is_intact M.is_open M.recovers connections
        (after_listening (P.history port.old) number) (P.history port.new) office.old office.new false)) }
    ensures intact { M.is_intact office.new → M.is_intact office.old }
{
    listen(alloc, number, port, out)?;
    if serve(alloc, port, connections, office) {
        Ok(())
    } else {
        Err(Fault::Net)
    }
}

/// Serves the office in a file.
fn serve_store<S: Start, P: Port, W: Write>(
    alloc: Global,
    finding: Finding<'_, S>,
    number: u16,
    connections: u32,
    port: &mut P,
    out: &mut Sink<'_, W>,
) -> (Result<(), Fault>, Outcome<S>)
    ensures done { OnOk result.0 (ServeDone ⟦<FileFrom<S> as Disk>⟧ (image_at S.Start) number connections
        out.old out.new (P.history port.old) (P.history port.new) result.1) }
    ensures fault { IfErr result.0 (ServeFails ⟦<FileFrom<S> as Disk>⟧ (image_at S.Start) number connections
        out.old out.new (P.history port.old) (P.history port.new) result.1) }
{
    let mut kept = match open_office(alloc, finding) {
        Ok(office) => DurableOffice { office },
        Err((fault, outcome)) => return (Err(fault), outcome),
    };
    let served = serve_on_port(alloc, number, connections, port, &mut kept, out);
    let DurableOffice { office } = kept;
    (served, StoreOutcome::Closed(close_office(office)))
}

/// Checks whether the office in a file is sound, and prints the verdict.
fn check<S: Start, W: Write>(
    alloc: Global,
    finding: Finding<'_, S>,
    out: &mut Sink<'_, W>,
) -> (Result<(), Fault>, Outcome<S>)
    ensures done { OnOk result.0 (CheckDone ⟦<FileFrom<S> as Disk>⟧ (image_at S.Start)
        out.old out.new result.1) }
    ensures fault { IfErr result.0 (CheckFails ⟦<FileFrom<S> as Disk>⟧ (image_at S.Start)
        out.old out.new result.1) }
{
    match judge_file(alloc, finding) {
        Ok((judged, files)) => (
            tell_judgment(alloc, judged, out),
            StoreOutcome::Closed(files),
        ),
        Err(failed) => (
            Err(Fault::from(failed.why())),
            StoreOutcome::Unopened(failed),
        ),
    }
}

/// Prints that an office was migrated.
fn tell_migration<W: Write>(out: &mut Sink<'_, W>) -> Result<(), Fault>
    ensures done { OnOk result (Prints migrated_line out.old out.new) }
    ensures fault { IfErr result (LineFails migrated_line out.old out.new) }
{
    write_whole(out, b"migrated\n")?;
    Ok(())
}

/// Migrates the office in a file from version 1 to version 2.
fn migrate<S: Start, W: Write>(
    alloc: Global,
    finding: Finding<'_, S>,
    out: &mut Sink<'_, W>,
) -> (Result<(), Fault>, Outcome<S>)
    ensures done { OnOk result.0 (MigrateDone ⟦<FileFrom<S> as Disk>⟧ (image_at S.Start)
        out.old out.new result.1) }
    ensures fault { IfErr result.0 (MigrateFails ⟦<FileFrom<S> as Disk>⟧ (image_at S.Start)
        out.old out.new result.1) }
{
    let mut conn = match find(finding) {
        Ok(conn) => conn,
        Err(failed) => return (
            Err(Fault::from(failed.why())),
            StoreOutcome::Unopened(failed),
        ),
    };
    let brought = office::migrate(alloc, &mut conn);
    let files = close(conn);
    match brought {
        Ok(()) => (tell_migration(out), StoreOutcome::Closed(files)),
        Err(fault) => (Err(Fault::from(fault)), StoreOutcome::Closed(files)),
    }
}

/// Performs a task.
fn do_task<S: Start, R: Read, W: Write, P: Port>(
    openings: Openings<'_, S>,
    alloc: Global,
    task: Task,
    reader: &mut Source<'_, R>,
    out: &mut Sink<'_, W>,
    port: &mut P,
) -> (Result<(), Fault>, Outcome<S>)
    ensures done { OnOk result.0 (Does ⟦<FileFrom<S> as Disk>⟧ (image_at S.Start) task
        (channels reader.old out.old (P.history port.old)) (channels reader.new out.new (P.history port.new))
        result.1) }
    ensures fault { IfErr result.0 (FailsWith ⟦<FileFrom<S> as Disk>⟧ (image_at S.Start) task
        (channels reader.old out.old (P.history port.old)) (channels reader.new out.new (P.history port.new))
        result.1) }
{
    match task {
        Task::Preview {
            country,
            repo,
            file,
        } => {
            let input = openings.input(file.as_ref());
            let printed = print_preview(alloc, &country, &repo, input, reader, out);
            (printed, StoreOutcome::Untouched(openings.unused()))
        }
        Task::Init { store, settings } => init(openings.making(&store), settings),
        Task::Trial { settings } => (
            try_office(alloc, settings, reader, out),
            StoreOutcome::Untouched(openings.unused()),
        ),
        Task::Import {
            store,
            source,
            file,
        } => {
            let reading = openings.reading(&file);
            import(alloc, reading, openings.finding(&store), source, out)
        }
        Task::Talk { store } => talk(alloc, openings.finding(&store), reader, out),
        Task::Serve {
            store,
            port: number,
            connections,
        } => {
            let finding = openings.finding(&store);
            serve_store(alloc, finding, number, connections, port, out)
        }
        Task::Check { store } => check(alloc, openings.finding(&store), out),
        Task::Migrate { store } => migrate(alloc, openings.finding(&store), out),
    }
}

/// Performs the task that the words after the program's name describe, with these streams as standard input and output.
/// If they describe none, that is the fault, and nothing is read, printed or opened. After a fault of a task, a part of
/// its text may have been printed. Only `serve` uses the port. `S` gives what the files held before. Returns what
/// became of the store: a store that was opened is closed.
pub fn run<S: Start, R: Read, W: Write, P: Port>(
    openings: Openings<'_, S>,
    alloc: Global,
    words: &[String],
    reader: &mut Source<'_, R>,
    out: &mut Sink<'_, W>,
    port: &mut P,
) -> (Result<(), Fault>, Outcome<S>)
    ensures done { OnOk result.0 (IsDone ⟦<FileFrom<S> as Disk>⟧ (image_at S.Start) (map string_bytes words.now)
        (channels reader.old out.old (P.history port.old)) (channels reader.new out.new (P.history port.new))
        result.1) }
    ensures fault { IfErr result.0 (Fails ⟦<FileFrom<S> as Disk>⟧ (image_at S.Start) (map string_bytes words.now)
        (channels reader.old out.old (P.history port.old)) (channels reader.new out.new (P.history port.new))
        result.1) }
{
    match task(alloc, words) {
        Ok(task) => do_task(openings, alloc, task, reader, out, port),
        Err(fault) => (
            Err(Fault::from(fault)),
            StoreOutcome::Untouched(openings.unused()),
        ),
    }
}
