//! The check of the places, for each way to store them.

ghost use Rattle.std.specs.Prelude.{◌≡◌, ℕ};
ghost use Rattle.sqlite.specs.Tree.{Trees};
ghost use Rattle.tree_core.specs.Forest.{Forest};
ghost use Rattle.office_tables.specs.Versions.{encoding};
ghost use Rattle.row_completeness.specs.WholePlaces.{RepresentsWhatItDescribes};
ghost use Rattle.row_decoding.specs.Examinations.{Examines};
ghost use Rattle.integrity_checks.specs.PlaceChecks.{AreChecked};

use isad_core::Number;
use office_tables::{StoreFault, Tables};
use sqlite::Alter;
use std::alloc::Global;
use tree_places::Places;

/// Which units have a place, and how deep they lie.
#[derive(Drop)]
pub struct Placed {
    /// Their numbers, ascending.
    pub units: Vec<Number>,
    /// The depth of the deepest unit. A top has depth 1. Without units it is 0.
    pub height: u64,
}

/// A way to store places that can check whether rows with any cells can be its own.
pub trait CheckedPlaces: Places {
    /// Reads the rows of the places. Returns none if one cannot be read, or if no office can have them; otherwise the
    /// units that have a place, and how deep they lie. Holds all rows while it runs.
    fn check<S: Alter>(
        alloc: Global,
        tables: &mut Tables<Self, S>,
    ) -> Result<Option<Placed>, StoreFault>
        ensures { Examines S.Store tables.old tables.new result (AreChecked Self.version) };

    /// Rows that are complete, and that an office can have, represent the forest that they describe.
    ghost shows_said: { (db : Trees) → RepresentsWhatItDescribes Self.represents (encoding Self.version) db };

    /// Rows represent one forest at most.
    ghost tells_one: { (db : Trees) (f g : Forest ℕ) → Self.represents db f → Self.represents db g → f ≡ g };
}
