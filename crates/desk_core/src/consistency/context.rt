//! What the desk's rows are checked against.
ghost use Rattle.std.specs.Prelude.{◌≡◌};
ghost use Rattle.isad_core.specs.Words.{is_between};

use crate::consistency::number_set::Numbers;

/// The office's settings and day (a day number from 1970-01-01), its units and containers, and the number of readers.
/// The readers have the tickets from 1 on.
#[derive(Drop)]
pub struct Around {
    pub seats: u64,
    pub daily: u64,
    pub run_size: u64,
    pub day: i64,
    pub readers: u64,
    pub units: Numbers,
    pub containers: Numbers,
}

/// Whether it is a number from 1 to the last.
pub(crate) fn is_given(number: u64, last: u64) -> bool
    ensures { result ≡ is_between 1 last number }
{
    1 <= number && number <= last
}
