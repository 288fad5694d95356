//! The values that words give to a command's options and files.
ghost use Rattle.std.specs.Prelude.{◌≡◌, ◌≤◌, IfOk, codes};
ghost use Rattle.clap.specs.Matches.{found_of};
ghost use Rattle.clap.specs.Walk.{first_of, rows_of};
ghost use Rattle.isad_core.specs.Limits.{most_connections};
ghost use Rattle.command_line.specs.OptionValues.{HasNumber, HasNumberWithin, HasText, IsDay, IsOptionNumber, IsValue};

use clap::ArgMatches;
use isad_core::{Day, Text};
use std::alloc::{AllocError, Global};

/// The value of an option or file, which must have been given.
pub fn value_of<'a>(found: &ArgMatches<'a>, name: &str) -> &'a str
    requires { HasText (rows_of (found_of found.now)) name.now }
    ensures { IsValue (rows_of (found_of found.now)) name.now result.now }
{
    found.get_str(name).unwrap()
}

/// The value of an option or file, which must have been given, as a new text.
pub fn text(alloc: Global, found: &ArgMatches, name: &str) -> Result<Text, AllocError>
    requires { HasText (rows_of (found_of found.now)) name.now }
    ensures { IfOk result (IsValue (rows_of (found_of found.now)) name.now) }
{
    Text::new(alloc, value_of(found, name))
}

/// The value of an option or file that may be left out, or none if it was.
pub fn optional_text(
    alloc: Global,
    found: &ArgMatches,
    name: &str,
) -> Result<Option<Text>, AllocError>
    ensures { IfOk result (λ o. first_of name.now (rows_of (found_of found.now)) ≡ o) }
{
    match found.get_str(name) {
        Some(text) => Ok(Some(Text::new(alloc, text)?)),
        None => Ok(None),
    }
}

/// The value of an option that was given with a number from 0 to 4294967295.
pub fn number(found: &ArgMatches, name: &str) -> u32
    requires { HasNumber (rows_of (found_of found.now)) name.now }
    ensures { IsOptionNumber (rows_of (found_of found.now)) name.now result }
{
    found.get_one(name).unwrap()
}

/// The port that `--port` gives, from 1 to 65535.
pub fn port(found: &ArgMatches) -> u16
    requires { HasNumberWithin 1 65535 (rows_of (found_of found.now)) (codes "port") }
    ensures value { IsOptionNumber (rows_of (found_of found.now)) (codes "port") result }
    ensures least { 1 ≤ result }
{
    found.get_one("port").unwrap()
}

/// The number of connections that `--connections` gives, from 1 to 10000.
pub fn connections(found: &ArgMatches) -> u32
    requires { HasNumberWithin 1 most_connections (rows_of (found_of found.now)) (codes "connections") }
    ensures value { IsOptionNumber (rows_of (found_of found.now)) (codes "connections") result }
    ensures least { 1 ≤ result }
    ensures most { result ≤ most_connections }
{
    found.get_one("connections").unwrap()
}

/// The day that an option gives as YYYY-MM-DD, or none if its text is not a day from 1900-01-01 to 9999-12-31.
pub fn day(found: &ArgMatches, name: &str) -> Option<Day>
    requires { HasText (rows_of (found_of found.now)) name.now }
    ensures { IsDay (rows_of (found_of found.now)) name.now result }
{
    Day::parse(value_of(found, name))
}
