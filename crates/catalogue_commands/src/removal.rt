//! Removes units.

ghost use Rattle.std.specs.Prelude.{◌≡◌, true};
ghost use Rattle.catalogue_core.specs.UnitLookup.{has_unit};
ghost use Rattle.desk_store.specs.Holdings.{issued_of};
ghost use Rattle.office_core.specs.declared.command.Command.TheVariants as command;
ghost use Rattle.state_encoding.specs.OfficeRows.{tables as tables_of};
ghost use Rattle.refinement.specs.CommandSteps.{PerformsKnowing};
ghost use Rattle.access.specs.Gate.{AreAsked};

use access::{loans_near, pass_gate_with};
use catalogue_store::{Places, is_unit, remove_branch};
use desk_store::ContainerOrder;
use isad_core::{Day, Number};
use office_core::{Done, Refusal};
use office_tables::{StoreFault, Tables};
use sqlite::Alter;
use std::alloc::Global;

/// Removes a unit that exists and all below it, or refuses if this would close a container to the reader who has it.
/// `loans` are the loans that this may affect.
fn remove_beside<P: Places, S: Alter>(
    alloc: Global,
    tables: &mut Tables<P, S>,
    today: Day,
    unit: Number,
    loans: &[ContainerOrder],
) -> Result<Result<Done, Refusal>, StoreFault>
    ensures { PerformsKnowing P.represents P.version S.Store
        (λ s. (today ≡ s.day) × (has_unit s.catalogue.forest unit ≡ true)
        × AreAsked unit s (issued_of (tables_of P.version s).desk) loans.now) (command.Remove unit)
        tables.old tables.new result }
{
    let units = remove_branch(alloc, tables, unit)?;
    pass_gate_with(alloc, tables, None, today, loans, Done::Remove { units })
}

/// Removes a unit that exists and all below it, or refuses if this would close a container to the reader who has it.
fn remove_known<P: Places, S: Alter>(
    alloc: Global,
    tables: &mut Tables<P, S>,
    today: Day,
    unit: Number,
) -> Result<Result<Done, Refusal>, StoreFault>
    ensures { PerformsKnowing P.represents P.version S.Store
        (λ s. (today ≡ s.day) × (has_unit s.catalogue.forest unit ≡ true)) (command.Remove unit)
        tables.old tables.new result }
{
    // Once the units are removed, no row says which containers they named.
    let loans = loans_near(alloc, tables, unit)?;
    remove_beside(alloc, tables, today, unit, &loans)
}

/// Removes a unit and all below it, with the permits for these units. Containers, orders and runs stay, and no unit
/// number is given again. Tells how many units went. Refuses if there is no such unit, or if this would close a
/// container to the reader who has it. After a refusal the caller must roll the transaction back. `today` must be the
/// office's day.
pub fn remove_unit<P: Places, S: Alter>(
    alloc: Global,
    tables: &mut Tables<P, S>,
    today: Day,
    unit: Number,
) -> Result<Result<Done, Refusal>, StoreFault>
    ensures { PerformsKnowing P.represents P.version S.Store (λ s. today ≡ s.day) (command.Remove unit)
        tables.old tables.new result }
{
    let known = is_unit(alloc, tables, unit)?;
    if !known {
        return Ok(Err(Refusal::UnknownUnit));
    }
    remove_known(alloc, tables, today, unit)
}
