//! Why a file is refused.
ghost use Rattle.std.specs.Prelude.{◌≡◌};
ghost use Rattle.atom_csv.specs.Causes.{cause_number};

/// Why a row of a file is faulty, lowest first.
#[derive(Clone, Copy)]
pub enum Cause {
    /// The bytes are not UTF-8.
    NotUtf8,
    /// There is no record.
    NoHeader,
    /// The header has no `legacyId` column.
    NoLegacyId,
    /// A column that is read occurs twice in the header.
    HeaderTwice,
    /// The row does not have as many fields as the header.
    FieldCount,
    /// The legacyId is blank.
    BlankLegacyId,
    /// The legacyId occurred in an earlier row, and this row is not a translation.
    Repeated,
    /// The parent is named only by a slug.
    Slug,
    /// Its number is above 20001, where the header is row 1: a file may have 20000 rows below its header.
    TooManyRows,
    /// A field that is read has more than 65535 bytes.
    TooLong,
    /// Its parent exists neither in the office nor in a row above it. `read_file` does not ask this.
    NoParent,
    /// It would lie too deep. `read_file` does not ask this.
    TooDeep,
}

impl Cause {
    /// Its number, from 1 to 12, in the order of the variants.
    pub fn number(self) -> u8
        ensures { result ≡ cause_number self }
    {
        match self {
            Cause::NotUtf8 => 1,
            Cause::NoHeader => 2,
            Cause::NoLegacyId => 3,
            Cause::HeaderTwice => 4,
            Cause::FieldCount => 5,
            Cause::BlankLegacyId => 6,
            Cause::Repeated => 7,
            Cause::Slug => 8,
            Cause::TooManyRows => 9,
            Cause::TooLong => 10,
            Cause::NoParent => 11,
            Cause::TooDeep => 12,
        }
    }
}
