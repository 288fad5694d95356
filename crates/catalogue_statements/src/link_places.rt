//! Version 1 of the tables, as a type.

use office_tables::Versioned;

/// The places as links to parents: version 1 of the tables.
pub struct LinkPlaces;

impl Versioned for LinkPlaces {
    ghost use Rattle.office_tables.specs.Versions.{First};

    ghost version = { First };
}
