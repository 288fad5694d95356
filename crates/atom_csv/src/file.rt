//! The contents of a file.
ghost use Rattle.std.specs.Prelude.{◌≡◌};

use isad_core::{List, Text, Values};
use std::alloc::{AllocError, AllocFailed};

/// A row of a file: the description of a unit.
#[derive(Debug, PartialEq, Drop)]
pub struct Row {
    /// Its number; the header is row 1. Blank rows and translations count.
    pub row: u32,
    /// Its legacyId, which is not blank and differs from that of every other row of the `File`.
    pub legacy: Text,
    /// The legacyId of its parent, if it names one.
    pub parent: Option<Text>,
    /// Whether its `publicationStatus` is `Published`, in any ASCII case. Any other row is a draft.
    pub published: bool,
    /// The values of the description.
    pub values: Values,
}

/// The rows of a file, without blank rows and translations.
#[derive(Debug, PartialEq, Drop)]
pub struct File {
    pub rows: List<Row>,
    /// How many rows describe the unit of an earlier row again, in another language.
    pub translations: u32,
}

/// Why a file is refused.
#[derive(Clone, Copy, Debug, PartialEq, Eq)]
pub enum FileFault {
    /// There was not enough memory.
    Memory,
    /// The first row with a cause, and its lowest cause. Row 0 is the whole file, and row 1 its header.
    Bad { row: u32, cause: u8 },
}

impl From<AllocError> for FileFault {
    ghost use Rattle.atom_csv.specs.declared.file.FileFault.TheVariants.{Memory};

    ghost from_gives = { λ _ e. e ≡ Memory };

    fn from(_: AllocError) -> FileFault {
        FileFault::Memory
    }
}

impl<T: Drop> From<AllocFailed<T>> for FileFault {
    ghost use Rattle.atom_csv.specs.declared.file.FileFault.TheVariants.{Memory};

    ghost from_gives = { λ _ e. e ≡ Memory };

    fn from(_: AllocFailed<T>) -> FileFault {
        FileFault::Memory
    }
}
