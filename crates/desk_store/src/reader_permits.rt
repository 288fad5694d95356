//! Permits for closed units.

ghost use Rattle.std.specs.Prelude.{◌≡◌, false, List, [], ◌∷◌, OnOk};
ghost use Rattle.std.specs.List.{list_any};
ghost use Rattle.sqlite.specs.Held.{state};
ghost use Rattle.sqlite.specs.State.{HasCleanDisk};
ghost use Rattle.desk_core.specs.DeskRows.{PermitRow};
ghost use Rattle.office_tables.specs.Calls.{StoreUpdates, StoreAnswers};
ghost use Rattle.office_tables.specs.Order.{IsOrdered};
ghost use Rattle.office_tables.specs.Premises.{◌when◌within◌gives◌, ◌within◌adds◌, ◌within◌gives◌};
ghost use Rattle.office_tables.specs.Schema as schema;
ghost use Rattle.office_tables.specs.NumberedStatements.{PutsNumbered, ThinsNumbered};
ghost use Rattle.desk_store.specs.Permits.{permits_of, by_permitted_unit, is_permit, without_permit, desk_with_permit};
ghost use Rattle.desk_store.specs.Permits.{with_permit_row};
ghost use Rattle.desk_store.specs.Permits.{desk_without_permit, HasUnitRow, MayHave};
ghost use Rattle.office_tables.specs.Permits.{permit_cells};
ghost use Rattle.desk_store.specs.Representation.{RepresentsDeskAlone, IsLegible};
ghost use Rattle.office_tables.specs.RowNumbers.{HasNumbered};

use isad_core::{Day, Number};
use office_tables::from_row::FromRow;
use office_tables::value::day;
use office_tables::{StoreFault, Tables, Versioned, cell, change, find, number_at};
use sqlite::{Alter, Row};
use std::alloc::Global;

/// A permit for a unit, up to and including a day.
#[derive(Debug, Clone, Copy, PartialEq, Eq, Drop)]
pub struct Permit {
    pub unit: Number,
    pub until: Day,
}

impl FromRow for Permit {
    ghost use Rattle.std.specs.Prelude.{◌≡◌, pos, [], ◌∷◌, true};
    ghost use Rattle.sqlite.specs.declared.types.Value.TheVariants.{Int};
    ghost use Rattle.isad_core.specs.Days.{is_day_number};

    ghost cells = { λ p. Int (pos p.unit) ∷ Int p.until ∷ [] };

    ghost is_legible = { λ p. is_day_number p.until ≡ true };

    fn read(row: &Row) -> Result<Permit, StoreFault> {
        let number: i32 = row.get(1)?;
        let Some(until) = Day::from_number(number) else {
            return Err(StoreFault::Schema);
        };
        Ok(Permit {
            unit: number_at(row, 0)?,
            until,
        })
    }
}

/// The permits of a ticket, in ascending order of the units' numbers, whether they are still valid or not. Empty if it
/// has none. They are found by the ticket, the first column of the primary key.
pub fn permits<P: Versioned, S: Alter>(
    alloc: Global,
    tables: &mut Tables<P, S>,
    ticket: Number,
) -> Result<Vec<Permit>, StoreFault>
    ensures answers { StoreAnswers S.Store RepresentsDeskAlone tables.old tables.new result
        within IsLegible gives λ _ d all. IsOrdered by_permitted_unit (permits_of ticket d) all.items }
{
    find(
        alloc,
        tables,
        "SELECT unit, until FROM permit WHERE ticket = ?1 ORDER BY ticket, unit",
        &[cell(ticket)],
    )
}

/// Adds a permit for a unit, which must be catalogued, and for which the ticket has none. It holds up to the day,
/// inclusive.
fn insert_permit<P: Versioned, S: Alter>(
    tables: &mut Tables<P, S>,
    ticket: Number,
    unit: Number,
    until: Day,
) -> Result<(), StoreFault>
    ensures { PutsNumbered S.Store schema.permit permit_cells tables.old tables.new result
        within (λ s ps. (list_any (is_permit ticket unit) ps ≡ false) × HasUnitRow unit s.now.trees)
        adds record { ticket = ticket; unit = unit; until = until } }
{
    change(
        tables,
        "INSERT INTO permit (ticket, unit, until) VALUES (?1, ?2, ?3)",
        &[cell(ticket), cell(unit), day(until)],
    )
}

/// Deletes a ticket's permit for a unit, if it has one. The permit is found by its primary key.
fn clear_permit<P: Versioned, S: Alter>(
    tables: &mut Tables<P, S>,
    ticket: Number,
    unit: Number,
) -> Result<(), StoreFault>
    ensures { ThinsNumbered S.Store schema.permit permit_cells tables.old tables.new result
        (without_permit ticket unit) }
{
    change(
        tables,
        "DELETE FROM permit WHERE ticket = ?1 AND unit = ?2",
        &[cell(ticket), cell(unit)],
    )
}

/// Gives a ticket a permit for a unit up to a day, inclusive, in place of the one that it may have for this unit. No
/// other permit is touched, whatever the ticket and the unit. The ticket must have been given, which is not checked.
/// The table refuses a unit that is not catalogued. After a fault the ticket may have lost its permit for the unit.
pub fn grant<P: Versioned, S: Alter>(
    tables: &mut Tables<P, S>,
    ticket: Number,
    unit: Number,
    until: Day,
) -> Result<(), StoreFault>
    ensures updates { StoreUpdates S.Store (schema.permit.tree ∷ []) RepresentsDeskAlone tables.old tables.new result
        when MayHave ticket unit (state S.Store tables.old).now.trees within IsLegible
        gives desk_with_permit ticket unit until }
    ensures rows { HasCleanDisk (state S.Store tables.new) → (ps : List PermitRow)
        → HasNumbered permit_cells ((state S.Store tables.old).now.trees schema.permit.tree) ps
        → OnOk result (HasNumbered permit_cells ((state S.Store tables.new).now.trees schema.permit.tree)
        (with_permit_row ticket unit until ps)) }
{
    clear_permit(tables, ticket, unit)?;
    insert_permit(tables, ticket, unit, until)
}

/// Revokes a ticket's permit for a unit, if it has one; otherwise nothing is changed.
pub fn revoke<P: Versioned, S: Alter>(
    tables: &mut Tables<P, S>,
    ticket: Number,
    unit: Number,
) -> Result<(), StoreFault>
    ensures updates { StoreUpdates S.Store (schema.permit.tree ∷ []) RepresentsDeskAlone tables.old tables.new result
        within IsLegible gives desk_without_permit ticket unit }
{
    clear_permit(tables, ticket, unit)
}
