//! The numbers that commands and questions name.

ghost use Rattle.std.specs.Prelude.{◌≡◌};
ghost use Rattle.office.specs.NamedNumbers.{named};

use isad_core::Number;

/// The number that a command or a question names, or 0 if it is 2^63 or greater. Nothing has such a number, and nothing
/// has 0.
pub(crate) fn named(n: u64) -> Number
    ensures { result ≡ named n }
{
    Number::of(n).unwrap_or(Number::from(0))
}
