//! Why the catalogue's tables cannot be those of a catalogue.

ghost use Rattle.std.specs.Prelude.{◌≡◌};
ghost use Rattle.integrity_checks.specs.CatalogueChecks.{cause_of};

/// The part of the catalogue of which a row cannot be read, or whose rows no catalogue can have.
#[derive(Clone, Copy, Debug, PartialEq, Eq)]
pub enum CatalogueDefect {
    /// The places of the units.
    Places,
    Units,
    Elements,
    /// The containers, and which units lie in them.
    Containers,
}

impl CatalogueDefect {
    /// Its number among the ten causes for which an office's tables are refused, from 2 to 5.
    pub fn cause(self) -> u8
        ensures { result ≡ cause_of self }
    {
        match self {
            CatalogueDefect::Places => 2,
            CatalogueDefect::Units => 3,
            CatalogueDefect::Elements => 4,
            CatalogueDefect::Containers => 5,
        }
    }
}
