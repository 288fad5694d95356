//! Containers at the desk.

ghost use Rattle.std.specs.Prelude.{◌≡◌, nat_eq, map, filter};
ghost use Rattle.desk_core.specs.DeskRows.{HoldingRow};
ghost use Rattle.office_tables.specs.Calls.{StoreAnswers};
ghost use Rattle.office_tables.specs.Premises.{◌when◌gives◌, ◌within◌gives◌};
ghost use Rattle.office_tables.specs.Schema as schema;
ghost use Rattle.office_tables.specs.Step.{Holds};
ghost use Rattle.office_tables.specs.TableStatements.{LooksUp};
ghost use Rattle.desk_store.specs.Holdings.{at_desk_of};
ghost use Rattle.desk_store.specs.Rows.{holding_cells};
ghost use Rattle.desk_store.specs.Representation.{RepresentsDeskAlone, IsLegible};
ghost use Rattle.office_tables.specs.RowNumbers.{AreByNumber};

use crate::waiting_orders::is_awaited;
use isad_core::Number;
use office_tables::{StoreFault, Tables, Versioned, find};
use sqlite::Alter;
use std::alloc::Global;

/// The containers at the desk, in ascending order of their numbers. This reads the whole table, which has a row for
/// each container that is not on the shelf.
fn desk_lines<P: Versioned, S: Alter>(
    alloc: Global,
    tables: &mut Tables<P, S>,
) -> Result<Vec<Number>, StoreFault>
    ensures { LooksUp S.Store (Holds schema.holding holding_cells) tables.old tables.new result
        when AreByNumber (λ h. h.container) gives λ xs found. found.items ≡ map (λ (h : HoldingRow). h.container)
        (filter (λ (h : HoldingRow). nat_eq 1 h.place) xs) }
{
    find(
        alloc,
        tables,
        "SELECT container FROM holding WHERE place = 1 ORDER BY container",
        &[],
    )
}

/// The containers at the desk, in ascending order of their numbers. The flag is true if an order waits for the
/// container. Containers out with readers are left out.
pub fn at_desk<P: Versioned, S: Alter>(
    alloc: Global,
    tables: &mut Tables<P, S>,
) -> Result<Vec<(Number, bool)>, StoreFault>
    ensures answers { StoreAnswers S.Store RepresentsDeskAlone tables.old tables.new result
        within IsLegible gives λ _ d all. all.items ≡ at_desk_of d }
{
    let containers = desk_lines(alloc, tables)?;
    let mut told = Vec::new(alloc);
    for container in &containers {
        let awaited = is_awaited(tables, *container)?;
        told.push((*container, awaited))?;
    }
    Ok(told)
}
