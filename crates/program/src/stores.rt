//! Offices in files, and the office of a trial, which is in memory.
//!
//! The contracts on a file's content hold for every start `S`, that is, for whatever the file held when it was opened.
ghost use Rattle.std.specs.Prelude.{IfErr, IfOk, IsTrue};
ghost use Rattle.sqlite.specs.Files.{file_state};
ghost use Rattle.sqlite.specs.State.{HasCleanDisk};
ghost use Rattle.sqlite.specs.WalFiles.{image_at};
ghost use Rattle.office.specs.InitialSettings.{founded};
ghost use Rattle.office.specs.IdleOffice.{IsIn};
ghost use Rattle.office_core.specs.SoundOffice.{IsSoundOffice};
ghost use Rattle.nested_sets.specs.Representation.{RepresentsSpanRows};
ghost use Rattle.office_tables.specs.Versions.{Second};
ghost use Rattle.program.specs.ClosedFiles.{HasLeft};
ghost use Rattle.program.specs.OpenedFiles.{IsFound};
ghost use Rattle.program.specs.FailedOpenings.{CouldNotOpen};
ghost use Rattle.program.specs.Outcomes.{IsUnopened};
ghost use Rattle.program.specs.Stores.{HasNoOffice, MakesNone};

use crate::faults::Fault;
use crate::files::{
    ClosedFiles, FailedOpeningFrom, FileStoreFrom, Finding, Making, Outcome, StoreOutcome, close,
    find, make, unmake,
};
use memory_disk::MemoryDisk;
use nested_sets::SpanPlaces;
use office::{Office, Settings};
use sqlite::{Connection, FileFrom, FileStore, Files, Options, Start};
use sqlite_disk::Disk;
use std::alloc::{AllocError, Global};

/// An office in a file. `S` gives what the file held before.
pub type KeptOffice<S> = Office<SpanPlaces, FileStoreFrom<S>>;

/// The office of a trial. It has the store of an office in a file, over a disk in memory.
pub type TrialOffice = Office<SpanPlaces, FileStore<MemoryDisk>>;

/// A random number marks what a log holds, so that an opening after a crash takes nothing old for new. No opening finds
/// the log of a trial, so any number will do.
const TRIAL_SEED: u64 = 1;

/// The fault of a store that could not be opened.
fn open_fault<S: Start>(failed: FailedOpeningFrom<S>) -> (Fault, Outcome<S>)
    requires { CouldNotOpen ⟦<FileFrom<S> as Disk>⟧ (image_at S.Start) failed }
    ensures { IsUnopened (image_at S.Start) result.1 result.0 }
{
    (Fault::from(failed.why()), StoreOutcome::Unopened(failed))
}

/// Makes a new office in a file that does not exist yet, with these settings and their day. The fault is `File` if the
/// file cannot be made, for example because it exists, `Memory`, or else `Store`. If it fails, a file that was made is
/// deleted again.
pub fn make_office<S: Start>(
    making: Making<'_, S>,
    settings: Settings,
) -> Result<KeptOffice<S>, (Fault, Outcome<S>)>
    ensures founded { IfOk result (λ office. HasCleanDisk (file_state office)
        → IsIn RepresentsSpanRows Second (founded settings) (file_state office)) }
    ensures kept { IfOk result (λ office. HasCleanDisk (file_state office) → IsTrue (file_state office).is_open) }
    ensures fault { IfErr result (λ e. MakesNone ⟦<FileFrom<S> as Disk>⟧ (image_at S.Start) e.1 settings e.0) }
{
    let (conn, unmaking) = match make(making) {
        Ok(made) => made,
        Err(failed) => return Err(open_fault(failed)),
    };
    match KeptOffice::<S>::create(conn, settings) {
        Ok(office) => Ok(office.known_sound()),
        Err((fault, conn)) => {
            let files = close(conn);
            unmake(unmaking);
            Err((Fault::from(fault), StoreOutcome::Closed(files)))
        }
    }
}

/// Opens the sound office of version 2 in the file of this leave, whose content `S` gives. The fault is `File` if
/// nothing is found there, `Memory`, or else `Store`. If it fails, a file that was opened is closed as it was found.
pub fn open_office<S: Start>(
    alloc: Global,
    finding: Finding<'_, S>,
) -> Result<KeptOffice<S>, (Fault, Outcome<S>)>
    ensures found { IfOk result (λ office. HasCleanDisk (file_state office)
        → IsFound (image_at S.Start) (file_state office)) }
    ensures fault { IfErr result (λ e. HasNoOffice ⟦<FileFrom<S> as Disk>⟧ (image_at S.Start) e.1 e.0) }
{
    let conn = match find(finding) {
        Ok(conn) => conn,
        Err(failed) => return Err(open_fault(failed)),
    };
    match KeptOffice::<S>::adopt(alloc, conn) {
        Ok(office) => Ok(office.known_sound()),
        Err((fault, conn)) => Err((Fault::from(fault), StoreOutcome::Closed(close(conn)))),
    }
}

/// Closes the file of an office. The file, or else its log, then holds the office's tables, if the disk has returned
/// what was written. If a failure of the disk had shut the office, the two hold what a crash might have left.
pub fn close_office<S: Start>(office: KeptOffice<S>) -> ClosedFiles<S>
    ensures { HasLeft office result }
{
    close(office.into_connection())
}

/// Makes a new office in memory, for a trial. Every failure, also of its disk, is want of memory.
pub fn make_trial_office(alloc: Global, settings: Settings) -> Result<TrialOffice, AllocError>
    ensures sound { IfOk result (λ _. IsSoundOffice (founded settings)) }
    ensures founded { IfOk result (λ office. IsIn RepresentsSpanRows Second (founded settings) (file_state office)) }
    ensures kept { IfOk result (λ office. IsTrue (file_state office).is_open) }
{
    let files = Files {
        log: MemoryDisk::new(alloc),
        db: MemoryDisk::new(alloc),
    };
    let conn = match Connection::open_files(alloc, files, Options::new(TRIAL_SEED)) {
        Ok(conn) => conn,
        Err(_) => return Err(AllocError),
    };
    match TrialOffice::create(conn, settings) {
        Ok(office) => Ok(office.known_sound()),
        Err(_) => Err(AllocError),
    }
}
