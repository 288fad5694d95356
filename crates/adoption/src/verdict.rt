//! What tables of any origin are.

/// What tables are, judged as those of an office of one version.
#[derive(Clone, Copy, Debug, PartialEq, Eq)]
pub enum Verdict {
    /// They are a sound office's.
    Sound,
    /// The table `office` cannot be read, or does not have exactly one row.
    NoOffice,
    /// They are of an older version than was expected.
    OldVersion,
    /// They are of a newer version than was expected.
    NewVersion,
    /// They are not this product's.
    OtherTables,
    /// No sound office has their rows. The number is the least of the ten causes that holds.
    Unsound(u8),
}
