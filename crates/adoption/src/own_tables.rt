//! Whether tables are this product's.

ghost use Rattle.std.specs.Prelude.{◌≡◌, ◌↔◌, IfErr, IfOk, IsTrue};
ghost use Rattle.sqlite.specs.Held.{state};
ghost use Rattle.sqlite.specs.Steps.{over_memory};
ghost use Rattle.office_tables.specs.Schema.{schema};

use crate::schema_comparison::Same;
use catalogue_store::{OfficeRow, Places, create};
use desk_store::create_desk;
use isad_core::{Day, Number, Text};
use office_tables::{StoreFault, begin};
use sqlite::{Alter, Connection, MemStore};
use std::alloc::Global;

/// The row of some office, to make tables with.
fn some_row(alloc: Global) -> Result<OfficeRow, StoreFault> {
    let Some(day) = Day::from_number(0) else {
        return Err(StoreFault::Memory);
    };
    Ok(OfficeRow {
        country: Text::new(alloc, "AA")?,
        repo: Text::new(alloc, "A")?,
        seats: 1,
        daily: 1,
        hands: 1,
        run_size: 1,
        day,
        next_unit: Number::from(1),
    })
}

/// The tables of a new office, in memory.
fn new_tables<P: Places>(alloc: Global) -> Result<Connection<MemStore>, StoreFault>
    ensures ours { IfOk result (λ model. (state over_memory model).now.schema ≡ schema P.version) }
{
    let row = some_row(alloc)?;
    let mut model = Connection::open_in_memory(alloc)?;
    begin(&mut model)?;
    create_desk(&mut model)?;
    create::<P, MemStore>(&mut model, &row)?;
    Ok(model)
}

/// Whether the tables have the same definitions as those of a new office of this version. No row is looked at. Fails
/// only for want of memory.
pub(crate) fn are_ours<P: Places, S: Alter>(
    alloc: Global,
    conn: &Connection<S>,
) -> Result<bool, StoreFault>
    ensures answers { IfOk result (λ yes. IsTrue yes ↔ ((state S.Store conn.now).now.schema ≡ schema P.version)) }
    ensures memory { IfErr result (λ e. e ≡ StoreFault.Memory) }
{
    // A store in memory fails only for want of memory.
    let Ok(model) = new_tables::<P>(alloc) else {
        return Err(StoreFault::Memory);
    };
    Ok(conn.schema().is_same(model.schema()))
}
