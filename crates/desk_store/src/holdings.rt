//! Where containers are.

ghost use Rattle.std.specs.Prelude.{◌≡◌, not, nat_eq, false, [], ◌∷◌, filter};
ghost use Rattle.std.specs.List.{list_any};
ghost use Rattle.office_tables.specs.Calls.{StoreUpdates};
ghost use Rattle.office_tables.specs.Premises.{◌gives◌, ◌when◌leaves◌, ◌within◌adds◌};
ghost use Rattle.office_tables.specs.Schema as schema;
ghost use Rattle.office_tables.specs.TableStatements.{Puts, Thins};
ghost use Rattle.desk_store.specs.Holdings.{with_place};
ghost use Rattle.desk_store.specs.Rows.{holding_cells};
ghost use Rattle.desk_store.specs.Representation.{RepresentsDeskAlone};
ghost use Rattle.office_tables.specs.RowNumbers.{AreByNumber};

use desk_core::Place;
use isad_core::Number;
use office_tables::{StoreFault, Tables, Versioned, cell, cell_or_null, change};
use sqlite::Alter;

/// Deletes the row of a container, if it has one, as if the container were on the shelf. The row is found by its
/// number.
fn clear_holding<P: Versioned, S: Alter>(
    tables: &mut Tables<P, S>,
    container: Number,
) -> Result<(), StoreFault>
    ensures { Thins S.Store schema.holding holding_cells tables.old tables.new result
        when AreByNumber (λ h. h.container) leaves filter (λ h. not (nat_eq container h.container)) }
{
    change(
        tables,
        "DELETE FROM holding WHERE container = ?1",
        &[cell(container)],
    )
}

/// Inserts a row for a container that has none, with the place where the container is now.
fn insert_holding<P: Versioned, S: Alter>(
    tables: &mut Tables<P, S>,
    container: Number,
    place: Number,
    held_by: Option<Number>,
) -> Result<(), StoreFault>
    ensures { Puts S.Store schema.holding holding_cells tables.old tables.new result
        within (λ xs. list_any (λ h. nat_eq container h.container) xs ≡ false)
        adds record { container = container; place = place; held_by = held_by } }
{
    change(
        tables,
        "INSERT INTO holding (container, place, held_by) VALUES (?1, ?2, ?3)",
        &[cell(container), cell(place), cell_or_null(held_by)],
    )
}

/// Moves a container to a place: the shelf, where it has no row, the desk, or out with an order. Neither the container
/// nor the order is looked up, and no state of an order is changed. After a fault the container may have no row.
pub fn set_place<P: Versioned, S: Alter>(
    tables: &mut Tables<P, S>,
    container: Number,
    place: Place,
) -> Result<(), StoreFault>
    ensures updates { StoreUpdates S.Store (schema.holding.tree ∷ []) RepresentsDeskAlone tables.old tables.new result
        gives with_place container place }
{
    clear_holding(tables, container)?;
    match place {
        Place::Shelf => Ok(()),
        Place::Desk => insert_holding(tables, container, Number::from(1), None),
        Place::Out(order) => insert_holding(tables, container, Number::from(2), Some(order)),
    }
}
