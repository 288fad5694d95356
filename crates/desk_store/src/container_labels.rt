//! Which containers there are, and what is written on them. Their table belongs to the catalogue.

ghost use Rattle.std.specs.Prelude.{◌≡◌, ℕ, nat_eq, find, is_some, option_map};
ghost use Rattle.std.specs.List.{AllByRecursion};
ghost use Rattle.isad_core.specs.LegibleValues.{IsLegibleBox};
ghost use Rattle.isad_core.specs.declared.values.BoxKey.{BoxKey};
ghost use Rattle.office_tables.specs.Calls.{StoreAnswers};
ghost use Rattle.office_tables.specs.Premises.{◌when◌gives◌, ◌when◌within◌gives◌, ◌within◌gives◌};
ghost use Rattle.office_tables.specs.Schema as schema;
ghost use Rattle.office_tables.specs.SharedRows.{numbered_container_cells};
ghost use Rattle.office_tables.specs.Step.{Holds};
ghost use Rattle.office_tables.specs.RowNumbers.{AreCounted};
ghost use Rattle.office_tables.specs.TableStatements.{LooksUp};
ghost use Rattle.desk_store.specs.Storage.{RepresentsQueues, IsLegibleStorage, container_with};

use isad_core::{BoxKey, Number};
use office_tables::{StoreFault, Tables, Versioned, cell, find_one};
use sqlite::Alter;
use std::alloc::Global;

/// What is written on the container with this number (name, location and kind), or none if no row has the number.
fn find_box<P: Versioned, S: Alter>(
    alloc: Global,
    tables: &mut Tables<P, S>,
    container: Number,
) -> Result<Option<BoxKey>, StoreFault>
    ensures { LooksUp S.Store (Holds schema.container numbered_container_cells) tables.old tables.new result
        when AreCounted (λ b. b.0) within AllByRecursion (λ b. IsLegibleBox b.1)
        gives λ bs found. found ≡ option_map (λ (b : ℕ × BoxKey). b.1)
        (find (λ (b : ℕ × BoxKey). nat_eq container b.0) bs) }
{
    find_one(
        alloc,
        tables,
        "SELECT name, location, kind FROM container WHERE id = ?1 ORDER BY id",
        &[cell(container)],
    )
}

/// What is written on the container with this number (name, location and kind), or none if the container is not known.
pub(crate) fn box_of<P: Versioned, S: Alter>(
    alloc: Global,
    tables: &mut Tables<P, S>,
    container: Number,
) -> Result<Option<BoxKey>, StoreFault>
    ensures answers { StoreAnswers S.Store RepresentsQueues tables.old tables.new result
        within IsLegibleStorage
        gives λ _ storage found. found ≡ option_map (λ (b : ℕ × BoxKey). b.1) (container_with container storage) }
{
    find_box(alloc, tables, container)
}

/// The number of the container with this number, or none if no row has it. Nothing that is written on it is read.
fn find_container<P: Versioned, S: Alter>(
    alloc: Global,
    tables: &mut Tables<P, S>,
    container: Number,
) -> Result<Option<Number>, StoreFault>
    ensures { LooksUp S.Store (Holds schema.container numbered_container_cells) tables.old tables.new result
        when AreCounted (λ b. b.0) gives λ bs found. found ≡ option_map (λ (b : ℕ × BoxKey). b.0)
        (find (λ (b : ℕ × BoxKey). nat_eq container b.0) bs) }
{
    find_one(
        alloc,
        tables,
        "SELECT id FROM container WHERE id = ?1 ORDER BY id",
        &[cell(container)],
    )
}

/// Whether there is a container with this number.
pub(crate) fn is_known<P: Versioned, S: Alter>(
    alloc: Global,
    tables: &mut Tables<P, S>,
    container: Number,
) -> Result<bool, StoreFault>
    ensures answers { StoreAnswers S.Store RepresentsQueues tables.old tables.new result
        within IsLegibleStorage gives λ _ storage known. known ≡ is_some (container_with container storage) }
{
    let found = find_container(alloc, tables, container)?;
    Ok(found.is_some())
}
