//! The files of a run: a connection to that of an office, and a file that is read.
//!
//! Only this module opens files. A command gets leave to open one, which it uses up.
ghost use Rattle.std.specs.Prelude.{◌≡◌, ◌++◌, IfErr, IfOk, false};
ghost use Rattle.std.specs.Option.{option_copied};
ghost use Rattle.std.specs.String.{string_bytes};
ghost use Rattle.sqlite.specs.WalFiles.{image_at};
ghost use Rattle.sqlite.specs.Files.{IsOpened, file_state};
ghost use Rattle.sqlite.specs.Held.{IsNew};
ghost use Rattle.sqlite.specs.Start.{FindsIn};
ghost use Rattle.sqlite.specs.State.{HasCleanDisk};
ghost use Rattle.program.specs.ClosedFiles.{HasLeft};
ghost use Rattle.program.specs.FailedOpenings.{CouldNotOpen, reason_of, reason_of_error};
ghost use Rattle.program.specs.ReadFiles.{AreAllOf, path_of};
ghost use Rattle.program.specs.Rows.{StandInOrder};

use crate::streams::{ReadFault, read_to_end};
use http_desk::streams::Source;
use isad_core::Text;
use sqlite::{Connection, Error, ErrorCode, FileFrom, FileStore, Files, Leftover, Start};
use sqlite_disk::Disk;
use std::alloc::{AllocError, Global};
use std::fs;
use std::fs::File;
use std::io::Read;
use std::marker::{Model, PhantomData};

/// Why no store was opened.
#[derive(Clone, Copy, Debug, PartialEq, Eq, Drop)]
pub enum FileFault {
    /// There is no memory.
    Memory,
    /// The file to open was not found, or the file to make could not be created, for example because it exists.
    Absent,
    /// The file exists, but no store could be opened on it.
    Unopened,
}

/// The system did not open the files of a store that `S` was to open, or gave no random number for it. Only the
/// functions here that open a store make one.
#[derive(Drop)]
pub struct NoFiles<S: Drop> {
    why: FileFault,
    start: PhantomData<S>,
}

impl<S: Drop> Model for NoFiles<S> {
    ghost use Rattle.program.specs.declared.files.FileFault.{FileFault};

    ghost Value = { FileFault };

    ghost view = { λ none. none.why };
}

/// Why a store that `S` was to open could not be opened.
#[derive(Drop)]
pub enum FailedOpening<S: Drop, D: Disk + Drop> {
    /// Nothing tried to open its files, for this reason: here is what opens them.
    Untried(FileFault, S),
    /// Its file is too short to hold a store, so nothing opened it: here is what opens it.
    TooShort(S),
    /// The system did not open its files, or gave no random number for it.
    NoFiles(NoFiles<S>),
    /// Its files were opened, but no store on them, for this reason: this is what is left of them.
    NoStore(FileFault, Leftover<D>),
}

impl<S: Drop, D: Disk + Drop> FailedOpening<S, D> {
    /// Why the store could not be opened. For a file that is too short, this is `Unopened`.
    pub fn why(&self) -> FileFault
        ensures { result ≡ reason_of self.now }
    {
        match self {
            FailedOpening::Untried(why, _) | FailedOpening::NoStore(why, _) => *why,
            FailedOpening::TooShort(_) => FileFault::Unopened,
            FailedOpening::NoFiles(none) => none.why,
        }
    }
}

/// What became of the store of a command. `S` is what opens it, and `D` is its disk.
#[derive(Drop)]
pub enum StoreOutcome<S: Drop, D: Disk + Drop> {
    /// Nothing tried to open it: here is what opens it.
    Untouched(S),
    /// It could not be opened.
    Unopened(FailedOpening<S, D>),
    /// It was opened, and is closed: these are its files.
    Closed(Files<D>),
}

/// A store in a file. `S` gives what the file held before.
pub type FileStoreFrom<S> = FileStore<FileFrom<S>>;

/// Why a store in a file could not be opened. `S` gives what the file held before.
pub type FailedOpeningFrom<S> = FailedOpening<S, FileFrom<S>>;

/// Leave to open the files of a run: one that is read, and one store, which `S` opens.
#[derive(Drop)]
pub struct Openings<'r, S: Start> {
    rt: &'r HostRuntime,
    start: S,
}

/// Leave to read the file at a path, once.
#[derive(Drop)]
pub struct Reading<'r> {
    rt: &'r HostRuntime,
    path: &'r Text,
}

/// Leave to open the store that is at a path, once.
#[derive(Drop)]
pub struct Finding<'r, S: Start> {
    rt: &'r HostRuntime,
    path: &'r Text,
    start: S,
}

/// Leave to make a store at a path and to open it, once.
#[derive(Drop)]
pub struct Making<'r, S: Start> {
    rt: &'r HostRuntime,
    path: &'r Text,
    start: S,
}

/// Leave to delete the store at a path, once. Only `make` gives it, for the store that it made.
#[derive(Drop)]
pub struct Unmaking<'r> {
    rt: &'r HostRuntime,
    path: &'r Text,
}

impl<'r, S: Start> Openings<'r, S> {
    /// Leave to open files of this machine.
    pub fn new(rt: &'r HostRuntime, start: S) -> Openings<'r, S> {
        Openings { rt, start }
    }

    /// Opens nothing, and returns what would open the store.
    pub fn unused(self) -> S {
        self.start
    }

    /// Leave to read the file at this path.
    pub fn reading(&self, path: &'r Text) -> Reading<'r>
        ensures { path_of (Some result) ≡ Some path.now }
    {
        Reading { rt: self.rt, path }
    }

    /// Leave to read the file at this path, if there is one.
    pub fn input(&self, path: Option<&'r Text>) -> Option<Reading<'r>>
        ensures { path_of result ≡ option_copied path.entry }
    {
        match path {
            Some(path) => Some(self.reading(path)),
            None => None,
        }
    }

    /// Leave to open the store at this path.
    pub fn finding(self, path: &'r Text) -> Finding<'r, S> {
        Finding {
            rt: self.rt,
            path,
            start: self.start,
        }
    }

    /// Leave to make a store at this path.
    pub fn making(self, path: &'r Text) -> Making<'r, S> {
        Making {
            rt: self.rt,
            path,
            start: self.start,
        }
    }
}

impl<S: Start> Finding<'_, S> {
    /// Opens nothing, and returns what would open the store.
    pub fn unused(self) -> S {
        self.start
    }
}

/// Reads a file that was opened to its end.
fn whole<R: Read + Drop>(alloc: Global, mut file: R) -> Result<Vec<u8>, ReadFault>
    ensures { IfOk result (λ v. AreAllOf (R.remaining file) v.items) }
{
    read_to_end(alloc, &mut Source::new(&mut file))
}

/// Reads a file to its end. The fault is `Memory`, or `Failed` if it cannot be opened or read. What a file of the
/// system has, no contract says.
pub fn file_bytes(reading: Reading<'_>, alloc: Global) -> Result<Vec<u8>, ReadFault> {
    match File::open(reading.rt, reading.path.as_str()) {
        Ok(file) => whole(alloc, file),
        Err(_) => Err(ReadFault::Failed),
    }
}

/// The reason that an error gives.
fn reason_of(error: &Error) -> FileFault
    ensures { result ≡ reason_of_error error.now }
{
    match error {
        Error::SqliteFailure(ErrorCode::OutOfMemory) => FileFault::Memory,
        _ => FileFault::Unopened,
    }
}

/// Opens the file.
fn open<S: Start>(
    rt: &HostRuntime,
    path: &str,
    start: S,
) -> Result<Connection<FileStoreFrom<S>>, FailedOpeningFrom<S>>
    ensures opened { IfOk result (λ conn. HasCleanDisk (file_state conn) → IsOpened conn) }
    ensures found { IfOk result (λ conn. HasCleanDisk (file_state conn)
        → FindsIn (image_at S.Start) (file_state conn)) }
    ensures ordered { IfOk result (λ conn. HasCleanDisk (file_state conn) → StandInOrder (file_state conn).now) }
    ensures fresh { IfOk result IsNew }
    ensures fails { IfErr result (CouldNotOpen ⟦<FileFrom<S> as Disk>⟧ (image_at S.Start)) }
{
    match Connection::open_from(rt, path, false, start) {
        Ok(conn) => Ok(conn),
        Err((error, Some(left))) => Err(FailedOpening::NoStore(reason_of(&error), left)),
        Err((error, None)) => Err(FailedOpening::NoFiles(NoFiles {
            why: reason_of(&error),
            start: PhantomData,
        })),
    }
}

/// The path of a file that lies beside another, with this ending.
fn beside(rt: &HostRuntime, path: &str, ending: &str) -> Result<String, AllocError>
    ensures { IfOk result (λ text. string_bytes text ≡ path.now ++ ending.now) }
{
    format!(in rt.alloc(); "{path}{ending}")
}

/// Whether a file can be made here, with the files beside it: it has no log, which may contain the last changes of
/// another office, and the name of the journal for which the engine looks is not too long.
fn has_room(rt: &HostRuntime, path: &str) -> Result<bool, AllocError> {
    let log = beside(rt, path, "-wal")?;
    let journal = beside(rt, path, "-journal")?;
    Ok(
        matches!(fs::exists(rt, log.as_str()), Ok(false))
            && fs::exists(rt, journal.as_str()).is_ok(),
    )
}

/// Makes a new file and opens a store on it, with leave to delete it again. Fails with `Absent` if the file or its log
/// exists, if the names of the files beside it are too long, or if another process makes the file at the same time. If
/// no store can be opened on the file, it is deleted again. The contract tells the tables only by what `S` says that
/// the file holds: that a new file is empty is the system's part.
pub fn make<'r, S: Start>(
    making: Making<'r, S>,
) -> Result<(Connection<FileStoreFrom<S>>, Unmaking<'r>), FailedOpeningFrom<S>>
    ensures opened { IfOk result (λ made. HasCleanDisk (file_state made.0) → IsOpened made.0) }
    ensures found { IfOk result (λ made. HasCleanDisk (file_state made.0)
        → FindsIn (image_at S.Start) (file_state made.0)) }
    ensures ordered { IfOk result (λ made. HasCleanDisk (file_state made.0)
        → StandInOrder (file_state made.0).now) }
    ensures fresh { IfOk result (λ made. IsNew made.0) }
    ensures fails { IfErr result (CouldNotOpen ⟦<FileFrom<S> as Disk>⟧ (image_at S.Start)) }
{
    let Making { rt, path, start } = making;
    let Ok(has_room) = has_room(rt, path.as_str()) else {
        return Err(FailedOpening::Untried(FileFault::Memory, start));
    };
    if !has_room || File::create_new(rt, path.as_str()).is_err() {
        return Err(FailedOpening::Untried(FileFault::Absent, start));
    }
    let unmaking = Unmaking { rt, path };
    match open(rt, path.as_str(), start) {
        Ok(conn) => Ok((conn, unmaking)),
        Err(failed) => {
            unmake(unmaking);
            Err(failed)
        }
    }
}

/// Deletes a file that was made and is closed, and its log, so that it can be made again. Failures are ignored.
pub fn unmake(unmaking: Unmaking<'_>) {
    let Unmaking { rt, path } = unmaking;
    let _ = fs::remove_file(rt, path.as_str());
    if let Ok(log) = beside(rt, path.as_str(), "-wal") {
        let _ = fs::remove_file(rt, log.as_str());
    }
}

/// The fewest bytes of a store: the smallest page of a database.
const FEWEST_BYTES: u64 = 512;

/// Opens an existing file, with the store in it. Fails with `Absent` if nothing is found at the path. A file of fewer
/// than 512 bytes is too short for a store, and stays as it is, with its log.
pub fn find<S: Start>(
    finding: Finding<'_, S>,
) -> Result<Connection<FileStoreFrom<S>>, FailedOpeningFrom<S>>
    ensures opened { IfOk result (λ conn. HasCleanDisk (file_state conn) → IsOpened conn) }
    ensures found { IfOk result (λ conn. HasCleanDisk (file_state conn)
        → FindsIn (image_at S.Start) (file_state conn)) }
    ensures ordered { IfOk result (λ conn. HasCleanDisk (file_state conn) → StandInOrder (file_state conn).now) }
    ensures fresh { IfOk result IsNew }
    ensures fails { IfErr result (CouldNotOpen ⟦<FileFrom<S> as Disk>⟧ (image_at S.Start)) }
{
    let Finding { rt, path, start } = finding;
    match fs::metadata(rt, path.as_str()) {
        Ok(found) if found.is_file() && found.len() < FEWEST_BYTES => {
            Err(FailedOpening::TooShort(start))
        }
        Ok(_) => open(rt, path.as_str(), start),
        Err(_) => Err(FailedOpening::Untried(FileFault::Absent, start)),
    }
}

/// A file and its log, once the store in them is closed.
pub type ClosedFiles<S> = Files<FileFrom<S>>;

/// What became of the store of a command that was given `S`.
pub type Outcome<S> = StoreOutcome<S, FileFrom<S>>;

/// Closes the file and its log. No transaction may be open. If the connection was open, they hold what was committed:
/// the file does, or its log if it could not be copied. If a failure of the disk had shut the connection, they hold
/// what a crash might have left.
pub fn close<S: Start>(conn: Connection<FileStoreFrom<S>>) -> ClosedFiles<S>
    ensures { (HasCleanDisk (file_state conn) → (file_state conn).in_transaction ≡ false) → HasLeft conn result }
{
    // Outside a transaction a connection that is open shows what was committed.
    let _ = conn.is_autocommit();
    match conn.close_files() {
        Ok(files) => files,
        Err((_, store)) => store.close(),
    }
}
