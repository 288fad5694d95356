//! Reads the words of a command line as a task.
ghost use Rattle.std.specs.Prelude.{◌≡◌, ◌∷◌, [], IfErr, IfOk, List, Option, Some, codes, false, map, true};
ghost use Rattle.std.specs.String.{string_bytes};
ghost use Rattle.clap.specs.Matches.{found_of};
ghost use Rattle.clap.specs.Simple.{subcommand_of};
ghost use Rattle.clap.specs.Takes.{takes};
ghost use Rattle.clap.specs.Values.{kind_of};
ghost use Rattle.clap.specs.Walk.{Row, Text as Word, rows_of};
ghost use Rattle.command_line.specs.CommandLine.{program};
ghost use Rattle.command_line.specs.OptionValues.{HasImport, HasNeeds, HasServer, HasSettings, HasText};
ghost use Rattle.program.specs.Tasks.{AreGiven, AreNoCodes, AreRefused, AreRefusedFor, IsTask, IsTaskOf, IsWords};

use crate::tasks::{Task, TaskFault};
use clap::error::ErrorKind;
use clap::{ArgMatches, Error};
use command_line::{connections, day, number, optional_text, port, record_office, text, value_of};
use isad_core::Text;
use office::{Settings, is_country, is_repository};
use std::alloc::{AllocError, Global};
use std::rt::Env;
use std::{env, io};

/// The message of `clap` for words that are not UTF-8.
const NO_TEXT: &str = "error: invalid UTF-8 was detected in one or more arguments\n";

/// The settings with which an office begins. The day is checked first.
#[tactic(auto, using(crate::proofs::GivenSettings::taken_are, crate::proofs::GivenSettings::refused_are))]
fn settings(alloc: Global, found: &ArgMatches) -> Result<Settings, TaskFault>
    requires { HasSettings (rows_of (found_of found.now)) }
    ensures given { IfOk result (AreGiven (rows_of (found_of found.now))) }
    ensures refused { IfErr result (AreRefused (rows_of (found_of found.now))) }
{
    let Some(day) = day(found, "day") else {
        return Err(TaskFault::Date);
    };
    let country = text(alloc, found, "country")?;
    let repo = text(alloc, found, "repo")?;
    let seats = number(found, "seats");
    let daily = number(found, "daily");
    let hands = number(found, "hands");
    let run = number(found, "run");
    match Settings::new(
        alloc,
        country.as_str(),
        repo.as_str(),
        seats,
        daily,
        hands,
        run,
        day,
    ) {
        Ok(settings) => Ok(settings),
        Err(fault) => Err(TaskFault::from(fault)),
    }
}

/// A preview. The codes are checked like those of an office.
fn preview(alloc: Global, found: &ArgMatches) -> Result<Task, TaskFault>
    requires country { HasText (rows_of (found_of found.now)) (codes "country") }
    requires repo { HasText (rows_of (found_of found.now)) (codes "repo") }
    ensures given { IfOk result (IsTask (codes "preview") (rows_of (found_of found.now))) }
    ensures refused { IfErr result (AreNoCodes (rows_of (found_of found.now))) }
{
    let country = value_of(found, "country");
    let repo = value_of(found, "repo");
    if !(is_country(country) && is_repository(repo)) {
        return Err(TaskFault::Settings);
    }
    Ok(Task::Preview {
        country: Text::new(alloc, country)?,
        repo: Text::new(alloc, repo)?,
        file: optional_text(alloc, found, "FILE")?,
    })
}

/// A new office in a file. The settings are checked before the path is read.
fn init(alloc: Global, found: &ArgMatches) -> Result<Task, TaskFault>
    requires store { HasText (rows_of (found_of found.now)) (codes "store") }
    requires settings { HasSettings (rows_of (found_of found.now)) }
    ensures given { IfOk result (IsTask (codes "init") (rows_of (found_of found.now))) }
    ensures refused { IfErr result (AreRefused (rows_of (found_of found.now))) }
{
    let settings = settings(alloc, found)?;
    let store = text(alloc, found, "store")?;
    Ok(Task::Init { store, settings })
}

/// An import into the office in a file.
fn import(alloc: Global, found: &ArgMatches) -> Result<Task, AllocError>
    requires { HasImport (rows_of (found_of found.now)) }
    ensures { IfOk result (IsTask (codes "import") (rows_of (found_of found.now))) }
{
    Ok(Task::Import {
        store: text(alloc, found, "store")?,
        source: text(alloc, found, "source")?,
        file: text(alloc, found, "FILE")?,
    })
}

/// A server of the office in a file.
fn serve(alloc: Global, found: &ArgMatches) -> Result<Task, AllocError>
    requires { HasServer (rows_of (found_of found.now)) }
    ensures { IfOk result (IsTask (codes "serve") (rows_of (found_of found.now))) }
{
    Ok(Task::Serve {
        store: text(alloc, found, "store")?,
        port: port(found),
        connections: connections(found),
    })
}

/// The task that a command and its matches name.
fn named_task(alloc: Global, name: &str, found: &ArgMatches) -> Result<Task, TaskFault>
    requires { HasNeeds name.now (rows_of (found_of found.now)) }
    ensures named { IfOk result (IsTask name.now (rows_of (found_of found.now))) }
    ensures refused { IfErr result (λ f. AreRefusedFor (Some (name.now, rows_of (found_of found.now))) f) }
    ensures taken { IfErr result (λ f. IsWords f → ⊥) }
{
    match name {
        "preview" => preview(alloc, found),
        "init" => init(alloc, found),
        "trial" => Ok(Task::Trial {
            settings: settings(alloc, found)?,
        }),
        "import" => Ok(import(alloc, found)?),
        "talk" => Ok(Task::Talk {
            store: text(alloc, found, "store")?,
        }),
        "serve" => Ok(serve(alloc, found)?),
        "check" => Ok(Task::Check {
            store: text(alloc, found, "store")?,
        }),
        "migrate" => Ok(Task::Migrate {
            store: text(alloc, found, "store")?,
        }),
        _ => unreachable!(),
    }
}

/// The fault of words that `clap` refused, with its text.
fn words_fault(alloc: Global, error: &Error) -> TaskFault
    ensures words { IsWords result → kind_of error.now ≡ ErrorKind.OutOfMemory → ⊥ }
    ensures others { (m : Option (Word × List Row)) → AreRefusedFor m result }
{
    if error.kind() == ErrorKind::OutOfMemory {
        return TaskFault::Memory;
    }
    match format!(in alloc; "{error}") {
        Ok(text) => TaskFault::Words(Text(text)),
        Err(_) => TaskFault::Memory,
    }
}

/// The task that the words after the program's name describe. Words that the command does not take, also a request for
/// help, are refused with `Words`. Values that are taken may still be refused: with `Date` a day that is not from
/// 1900-01-01 to 9999-12-31, and with `Settings` numbers out of their limits and codes of a wrong form.
pub fn task(alloc: Global, words: &[String]) -> Result<Task, TaskFault>
    // The task is the subcommand of the matches that `clap` has for these words, with their values.
    ensures named { IfOk result (IsTaskOf (subcommand_of program (map string_bytes words.now))) }
    // Words are refused only if the command does not take them.
    ensures refused { IfErr result (λ f. IsWords f → takes program (map string_bytes words.now) ≡ false) }
    // A day or a setting is refused only if the words are taken and give such a value.
    ensures values { IfErr result (AreRefusedFor (subcommand_of program (map string_bytes words.now))) }
{
    let matches = match record_office(alloc)?.try_get_matches_from(words) {
        Ok(matches) => matches,
        Err(error) => return Err(words_fault(alloc, &error)),
    };
    match matches.subcommand() {
        Some((name, found)) => named_task(alloc, name, found),
        None => unreachable!(),
    }
}

/// The words after the program's name. Words that are not UTF-8 are refused like any others that the command does not
/// take.
pub fn arguments<R: Env + AllocGlobal>(rt: &R, alloc: Global) -> Result<Vec<String>, TaskFault> {
    match env::args(rt) {
        Ok(words) => Ok(words.skip(1).collect(alloc)?),
        Err(error) if error.kind() == io::ErrorKind::OutOfMemory => Err(TaskFault::Memory),
        Err(_) => Err(TaskFault::Words(Text::new(alloc, NO_TEXT)?)),
    }
}

/// The command takes these words of a preview. It takes neither an empty command line nor `--help` alone.
pub fn previews_are_taken()
    ensures preview { takes program (codes "preview"
        ∷ codes "--country" ∷ codes "GB" ∷ codes "--repo" ∷ codes "0999" ∷ codes "a.csv" ∷ []) ≡ true }
    ensures no_words { takes program [] ≡ false }
    ensures help { takes program (codes "--help" ∷ []) ≡ false }
{}
