//! The units that a container is attached to.

ghost use Rattle.std.specs.Prelude.{◌≡◌, List, map, IfOk};
ghost use Rattle.sqlite.specs.Held.{state};
ghost use Rattle.sqlite.specs.State.{HasCleanDisk};
ghost use Rattle.catalogue_core.specs.CatalogueMerge.{Catalogue};
ghost use Rattle.catalogue_core.specs.Units.{«Unit» as Described};
ghost use Rattle.catalogue_statements.specs.CallClauses.{FailsWithCause, OnlyReads};
ghost use Rattle.catalogue_statements.specs.Representation.{RepresentsUnits, RepresentsHousings};
ghost use Rattle.tree_places.specs.Attachments.{AreAttached};

use catalogue_statements::containers::housed_in;
use isad_core::Number;
use office_tables::{StoreFault, Tables, Versioned};
use sqlite::Alter;
use std::alloc::Global;

/// The units that name a container among their own, each once, in order of their numbers. Empty if none does.
pub fn attached_units<P: Versioned, S: Alter>(
    alloc: Global,
    tables: &mut Tables<P, S>,
    container: Number,
) -> Result<Vec<Number>, StoreFault>
    ensures reads { OnlyReads S.Store tables.old tables.new result }
    ensures units { HasCleanDisk (state S.Store tables.new) → (c : Catalogue)
        → RepresentsUnits (state S.Store tables.old).now.trees c.forest
        → RepresentsHousings (state S.Store tables.old).now.trees c.forest c.containers
        → IfOk result (λ ids. (units : List Described) × AreAttached c container units
        × (ids.items ≡ map (λ (u : Described). u.id) units)) }
    ensures faults { (c : Catalogue) → RepresentsHousings (state S.Store tables.old).now.trees c.forest c.containers
        → FailsWithCause S.Store tables.old tables.new result }
{
    let mut ids = housed_in(alloc, tables, container)?;
    ids.dedup();
    Ok(ids)
}
