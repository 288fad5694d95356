//! What is known of an import before its rows are entered.

ghost use Rattle.std.specs.Prelude.{◌+◌, ◌<◌, ◌^◌, length};

use crate::legacy::UnitNumbers;
use atom_csv::Row;
use isad_core::{Number, Text};

/// The rows of a file from a source, which are to be entered.
#[derive(Clone, Copy)]
pub(crate) struct Import<'a> {
    pub(crate) source: &'a Text,
    pub(crate) rows: &'a [Row],
    /// The numbers of the catalogued units among those of the rows and their parents.
    pub(crate) catalogued: &'a UnitNumbers,
    /// The number of the first unit that is added.
    pub(crate) next: Number,
    ghost few: { next + length rows.now < 2 ^ 63 },
}
