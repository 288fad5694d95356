//! Why the reading room's tables cannot be those of a desk.

ghost use Rattle.std.specs.Prelude.{◌≡◌};
ghost use Rattle.integrity_checks.specs.DeskChecks.{cause_of};

/// The part of the desk of which a row cannot be read, or whose rows no desk can have.
#[derive(Clone, Copy, Debug, PartialEq, Eq)]
pub enum DeskDefect {
    /// Readers, seats or permits.
    Readers,
    Orders,
    /// The places of the containers.
    Holdings,
    Runs,
}

impl DeskDefect {
    /// Its number among the ten causes for which an office's tables are refused, from 6 to 9.
    pub fn cause(self) -> u8
        ensures { result ≡ cause_of self }
    {
        match self {
            DeskDefect::Readers => 6,
            DeskDefect::Orders => 7,
            DeskDefect::Holdings => 8,
            DeskDefect::Runs => 9,
        }
    }
}
