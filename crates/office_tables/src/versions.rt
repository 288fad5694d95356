//! Versions of the tables, as types.

/// The number of the version that new files have.
pub const NEWEST_VERSION: u64 = 2;

/// A version of the tables.
pub trait Versioned {
    ghost use Rattle.office_tables.specs.Versions.{Version};

    /// The version.
    ghost version: { Version };
}
