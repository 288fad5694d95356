//! The command line as `clap` reads it: the commands, with their options and files.
ghost use Rattle.std.specs.Prelude.{◌≡◌, IfOk, codes, false};
ghost use Rattle.clap.specs.Walk.{rule_of};
ghost use Rattle.clap.specs.Simple.{app_of, shape_of};
ghost use Rattle.clap.specs.declared.builder.command.Command.TheViews.{out-Command};
ghost use Rattle.isad_core.specs.Limits.{most_connections};
ghost use Rattle.command_line.specs.CommandLine.{check_command, import_command, init_command, migrate_command};
ghost use Rattle.command_line.specs.CommandLine.{preview_command, serve_command, store_command, talk_command};
ghost use Rattle.command_line.specs.CommandLine.{trial_command, bare_program, program, optional_file, store_option};
ghost use Rattle.command_line.specs.CommandLine.{desk_options, repository_options, room_options, settings_options};
ghost use Rattle.command_line.specs.CommandLine.{wanted_option, wanted_file, wanted_number, wanted_within, with_rules};
ghost use Rattle.command_line.specs.CommandLine.{care_commands, new_commands, with_commands, work_commands};

use clap::{Arg, Command, value_parser};
use isad_core::limits::MOST_CONNECTIONS;
use std::alloc::{AllocError, Global};

/// The text at the end of the program's help.
const EXITS: &str =
    "Exit status: 0 done; 1 refused, not sound or old version; 2 invalid arguments, date or settings;
3 a fault of a file, the store, a port, a session or memory. Details are on standard error.";

/// `--name <VALUE>`, which is required.
fn option<'a>(alloc: Global, name: &'a str, value: &'a str, help: &'a str) -> Arg<'a>
    ensures rule { rule_of result ≡ wanted_option name.entry.now }
    ensures local { result.global ≡ false }
{
    Arg::new(alloc, name)
        .long(name)
        .value_name(value)
        .required(true)
        .help(help)
}

/// `--name <NUMBER>`, a number that fits in 32 bits, which is required.
fn number<'a>(alloc: Global, name: &'a str, help: &'a str) -> Arg<'a>
    ensures rule { rule_of result ≡ wanted_number name.entry.now }
    ensures local { result.global ≡ false }
{
    option(alloc, name, "NUMBER", help).value_parser(value_parser!(u32))
}

/// `--port <PORT>`, a number from 1 to 65535, which is required.
fn port<'a>(alloc: Global) -> Arg<'a>
    ensures rule { rule_of result ≡ wanted_within (codes "port") 1 65535 }
    ensures local { result.global ≡ false }
{
    option(alloc, "port", "PORT", "The port on 127.0.0.1, 1 to 65535").value_parser(value_parser!(
        u16
    ).range(1..))
}

/// `--connections <NUMBER>`, a number from 1 to as many as a server takes, which is required.
fn connections<'a>(alloc: Global) -> Arg<'a>
    ensures rule { rule_of result ≡ wanted_within (codes "connections") 1 most_connections }
    ensures local { result.global ≡ false }
{
    option(
        alloc,
        "connections",
        "NUMBER",
        "Connections to serve before the program ends, 1 to 10000",
    )
    .value_parser(value_parser!(u32).range(1..=i64::from(MOST_CONNECTIONS)))
}

/// `--store <STORE>`, which is required.
fn store<'a>(alloc: Global) -> Arg<'a>
    ensures rule { rule_of result ≡ store_option }
    ensures local { result.global ≡ false }
{
    option(alloc, "store", "STORE", "The file that holds the office")
}

/// A file, which is optional.
fn file<'a>(alloc: Global) -> Arg<'a>
    ensures rule { rule_of result ≡ optional_file }
    ensures local { result.global ≡ false }
{
    Arg::new(alloc, "FILE").help(
        "The CSV file, in UTF-8, at most 20000 rows; standard input if omitted",
    )
}

/// A file, which is required.
fn given_file<'a>(alloc: Global) -> Arg<'a>
    ensures rule { rule_of result ≡ wanted_file }
    ensures local { result.global ≡ false }
{
    Arg::new(alloc, "FILE")
        .required(true)
        .help("The CSV file, in UTF-8, at most 20000 rows")
}

/// The command with the repository's options.
fn with_repository<'a>(alloc: Global, command: Command<'a>) -> Result<Command<'a>, AllocError>
    ensures shape { IfOk result (λ c. shape_of c ≡ with_rules repository_options (shape_of command.entry)) }
    ensures local { (out-Command command.entry).has_globals ≡ false
        → IfOk result (λ c. (out-Command c).has_globals ≡ false) }
{
    command
        .arg(option(
            alloc,
            "country",
            "COUNTRY",
            "The country code: two letters A to Z, such as GB",
        ))?
        .arg(option(
            alloc,
            "repo",
            "REPOSITORY",
            "The repository code: 1 to 32 ASCII characters without spaces, such as 0999",
        ))
}

/// The command with the options of the reading room: its seats, and how many orders a reader may place per day.
fn with_room<'a>(alloc: Global, command: Command<'a>) -> Result<Command<'a>, AllocError>
    ensures shape { IfOk result (λ c. shape_of c ≡ with_rules room_options (shape_of command.entry)) }
    ensures local { (out-Command command.entry).has_globals ≡ false
        → IfOk result (λ c. (out-Command c).has_globals ≡ false) }
{
    command
        .arg(number(alloc, "seats", "Seats in the reading room, 1 to 200"))?
        .arg(number(
            alloc,
            "daily",
            "Orders that a reader may place per day, 1 to 50",
        ))
}

/// The command with the options of the desk: how many containers a reader may have, and how many a run may fetch.
fn with_desk<'a>(alloc: Global, command: Command<'a>) -> Result<Command<'a>, AllocError>
    ensures shape { IfOk result (λ c. shape_of c ≡ with_rules desk_options (shape_of command.entry)) }
    ensures local { (out-Command command.entry).has_globals ≡ false
        → IfOk result (λ c. (out-Command c).has_globals ≡ false) }
{
    command
        .arg(number(
            alloc,
            "hands",
            "Containers that a reader may hold at once, 1 to 10",
        ))?
        .arg(number(alloc, "run", "Containers that one run may fetch, 1 to 100"))
}

/// The command with the settings of an office, and the day on which it opens.
fn with_settings<'a>(alloc: Global, command: Command<'a>) -> Result<Command<'a>, AllocError>
    ensures shape { IfOk result (λ c. shape_of c ≡ with_rules settings_options (shape_of command.entry)) }
    ensures local { (out-Command command.entry).has_globals ≡ false
        → IfOk result (λ c. (out-Command c).has_globals ≡ false) }
{
    let command = with_repository(alloc, command)?;
    let command = with_room(alloc, command)?;
    let command = with_desk(alloc, command)?;
    command.arg(option(
        alloc,
        "day",
        "DAY",
        "The first day of the office: YYYY-MM-DD, 1900-01-01 to 9999-12-31",
    ))
}

fn preview<'a>(alloc: Global) -> Result<Command<'a>, AllocError>
    ensures shape { IfOk result (λ c. shape_of c ≡ preview_command) }
    ensures local { IfOk result (λ c. (out-Command c).has_globals ≡ false) }
{
    let command = Command::new(alloc, "preview").about(
        "Print the finding aids of the published descriptions in a CSV file",
    );
    with_repository(alloc, command)?.arg(file(alloc))
}

fn init<'a>(alloc: Global) -> Result<Command<'a>, AllocError>
    ensures shape { IfOk result (λ c. shape_of c ≡ init_command) }
    ensures local { IfOk result (λ c. (out-Command c).has_globals ≡ false) }
{
    let command = Command::new(alloc, "init").about("Create an office in a new file");
    with_settings(alloc, command.arg(store(alloc))?)
}

fn trial<'a>(alloc: Global) -> Result<Command<'a>, AllocError>
    ensures shape { IfOk result (λ c. shape_of c ≡ trial_command) }
    ensures local { IfOk result (λ c. (out-Command c).has_globals ≡ false) }
{
    let command = Command::new(alloc, "trial").about(
        "Answer HTTP requests from standard input with a new office in memory",
    );
    with_settings(alloc, command)
}

fn import<'a>(alloc: Global) -> Result<Command<'a>, AllocError>
    ensures shape { IfOk result (λ c. shape_of c ≡ import_command) }
    ensures local { IfOk result (λ c. (out-Command c).has_globals ≡ false) }
{
    Command::new(alloc, "import")
        .about("Import the descriptions of a CSV file and print what changed")
        .arg(store(alloc))?
        .arg(option(
            alloc,
            "source",
            "SOURCE",
            "Where the file comes from: 1 to 64 ASCII letters, digits, '.', '_' or '-'",
        ))?
        .arg(given_file(alloc))
}

/// A command on an office in a file, without more options.
fn on_store<'a>(alloc: Global, name: &'a str, about: &'a str) -> Result<Command<'a>, AllocError>
    ensures shape { IfOk result (λ c. shape_of c ≡ store_command name.entry.now) }
    ensures local { IfOk result (λ c. (out-Command c).has_globals ≡ false) }
{
    Command::new(alloc, name).about(about).arg(store(alloc))
}

fn talk<'a>(alloc: Global) -> Result<Command<'a>, AllocError>
    ensures shape { IfOk result (λ c. shape_of c ≡ talk_command) }
    ensures local { IfOk result (λ c. (out-Command c).has_globals ≡ false) }
{
    on_store(alloc, "talk", "Answer HTTP requests from standard input")
}

fn serve<'a>(alloc: Global) -> Result<Command<'a>, AllocError>
    ensures shape { IfOk result (λ c. shape_of c ≡ serve_command) }
    ensures local { IfOk result (λ c. (out-Command c).has_globals ≡ false) }
{
    Command::new(alloc, "serve")
        .about("Answer HTTP requests on 127.0.0.1, one connection at a time")
        .arg(store(alloc))?
        .arg(port(alloc))?
        .arg(connections(alloc))
}

fn check<'a>(alloc: Global) -> Result<Command<'a>, AllocError>
    ensures shape { IfOk result (λ c. shape_of c ≡ check_command) }
    ensures local { IfOk result (λ c. (out-Command c).has_globals ≡ false) }
{
    on_store(
        alloc,
        "check",
        "Check the office and print 'sound', 'old version', or 'not sound' with a cause",
    )
}

fn migrate<'a>(alloc: Global) -> Result<Command<'a>, AllocError>
    ensures shape { IfOk result (λ c. shape_of c ≡ migrate_command) }
    ensures local { IfOk result (λ c. (out-Command c).has_globals ≡ false) }
{
    on_store(
        alloc,
        "migrate",
        "Migrate an office from version 1 to version 2 and print 'migrated'",
    )
}

/// The program without its commands.
fn base_command<'a>(alloc: Global) -> Result<Command<'a>, AllocError>
    ensures { IfOk result (λ c. app_of c ≡ bare_program) }
{
    Command::new(alloc, "record_office")
        .no_binary_name(true)
        .subcommand_required(true)
        .disable_help_subcommand(true)
        .about("Finding aids for an archive, and the desk of its reading room")
        .after_help(EXITS)
        .bin_name("record_office")
}

/// Adds the commands that need no store, and the one that makes it.
fn with_new<'a>(alloc: Global, program: Command<'a>) -> Result<Command<'a>, AllocError>
    ensures { IfOk result (λ c. app_of c ≡ with_commands new_commands (app_of program.entry)) }
{
    program
        .subcommand(preview(alloc)?)?
        .subcommand(init(alloc)?)?
        .subcommand(trial(alloc)?)
}

/// Adds the commands that work on an office in a file.
fn with_work<'a>(alloc: Global, program: Command<'a>) -> Result<Command<'a>, AllocError>
    ensures { IfOk result (λ c. app_of c ≡ with_commands work_commands (app_of program.entry)) }
{
    program
        .subcommand(import(alloc)?)?
        .subcommand(talk(alloc)?)?
        .subcommand(serve(alloc)?)
}

/// Adds the commands that look after an office's file.
fn with_care<'a>(alloc: Global, program: Command<'a>) -> Result<Command<'a>, AllocError>
    ensures { IfOk result (λ c. app_of c ≡ with_commands care_commands (app_of program.entry)) }
{
    program
        .subcommand(check(alloc)?)?
        .subcommand(migrate(alloc)?)
}

/// The program's command line: its commands, each with the rules of its options and files.
pub fn record_office<'a>(alloc: Global) -> Result<Command<'a>, AllocError>
    ensures { IfOk result (λ c. app_of c ≡ program) }
{
    let program = with_new(alloc, base_command(alloc)?)?;
    let program = with_work(alloc, program)?;
    with_care(alloc, program)
}
