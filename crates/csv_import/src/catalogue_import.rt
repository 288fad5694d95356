//! The import of a file into the catalogue.

ghost use Rattle.std.specs.Prelude.{◌≡◌, ◌+◌, ◌≤◌, ◌&&◌, true, length, nat_le, nat_lt, Ok, IfOk, IfSome};
ghost use Rattle.isad_core.specs.Limits.{most_containers, most_rows, most_unit_numbers, most_units};
ghost use Rattle.isad_core.specs.Texts.{Bytes};
ghost use Rattle.atom_csv.specs.FileContents.{file_of};
ghost use Rattle.catalogue_core.specs.Sources.{is_source};
ghost use Rattle.office_core.specs.declared.command.Command.TheVariants as command;
ghost use Rattle.office_tables.specs.Calls.{Answers};
ghost use Rattle.office_tables.specs.Premises.{◌within◌gives◌};
ghost use Rattle.catalogue_statements.specs.Settings.{AreLegibleSettings};
ghost use Rattle.catalogue_statements.specs.Representation.{RepresentsSettings};
ghost use Rattle.refinement.specs.CommandSteps.{PerformsKnowing};
ghost use Rattle.refinement.specs.AccessConditions.{RepresentsWhole};
ghost use Rattle.csv_import.specs.CatalogueImport.{HasNumberedUnits, reply_after, import_outcome};
ghost use Rattle.csv_import.specs.CatalogueImport as spec;

use crate::numbers::known_units;
use crate::pending_import::Import;
use crate::remarks::remarks;
use crate::row_entry::{Outcome, enter_rows};
use crate::row_plan::{Planned, plan};
use access::pass_gate;
use atom_csv::{File, FileFault, read_file};
use catalogue_statements::office::{count_containers, count_units};
use catalogue_store::{Places, settings};
use isad_core::limits::{MOST_CONTAINERS, MOST_UNIT_NUMBERS, MOST_UNITS};
use isad_core::{Day, Number, Text};
use office_core::{Done, Refusal};
use office_tables::{StoreFault, Tables};
use sqlite::Alter;
use std::alloc::Global;

/// Whether `new` more units fit besides so many, each with a number of its own from `next` on.
fn has_space(units: u64, next: Number, new: u64) -> bool
    ensures { result ≡ (nat_le (units + new) most_units && nat_le (next + new) (most_unit_numbers + 1)) }
{
    let all = units.saturating_add(new);
    let after = next.get().saturating_add(new);
    all <= MOST_UNITS && after <= MOST_UNIT_NUMBERS + 1
}

/// The number of the next new unit, or none if there is no room for `new` more units, each with a number of its own.
fn next_with_room<P: Places, S: Alter>(
    alloc: Global,
    tables: &mut Tables<P, S>,
    new: u64,
) -> Result<Option<Number>, StoreFault>
    ensures answers { Answers S.Store (RepresentsSettings P.represents P.version) tables.old tables.new result
        within AreLegibleSettings gives λ c _ next. next ≡ spec.next_with_room new c }
    ensures low { IfOk result (λ next. IfSome next (λ number. number ≤ most_unit_numbers + 1)) }
{
    let office = settings(alloc, tables)?;
    let units = count_units(alloc, tables)?;
    if has_space(units, office.next_unit, new) {
        return Ok(Some(office.next_unit));
    }
    Ok(None)
}

/// Whether there are more containers than an office may have.
fn has_many_containers<P: Places, S: Alter>(
    alloc: Global,
    tables: &mut Tables<P, S>,
) -> Result<bool, StoreFault>
    ensures answers { Answers S.Store (RepresentsSettings P.represents P.version) tables.old tables.new result
        within AreLegibleSettings gives λ c _ many. many ≡ nat_lt most_containers (length c.containers) }
{
    let containers = count_containers(alloc, tables)?;
    Ok(containers > MOST_CONTAINERS)
}

/// The outcome of a file whose rows were entered, or a refusal if there are now too many containers, or if a container
/// is now closed to the reader who has it.
fn judge<P: Places, S: Alter>(
    alloc: Global,
    tables: &mut Tables<P, S>,
    today: Day,
    file: &File,
    outcome: &Outcome,
) -> Result<Result<Done, Refusal>, StoreFault>
    ensures answers { (source : Bytes) → Answers S.Store (RepresentsWhole P.represents P.version)
        tables.old tables.new result
        within HasNumberedUnits source file.now outcome.now.units.items
        gives λ _ s reply. HasNumberedUnits source file.now outcome.now.units.items s → today ≡ s.day
        → reply ≡ reply_after s (import_outcome source file.now outcome.now.counts s) }
{
    if has_many_containers(alloc, tables)? {
        return Ok(Err(Refusal::Full));
    }
    let remarks = remarks(alloc, tables, &outcome.units, file.rows.as_slice())?;
    let counts = outcome.counts;
    let done = Done::Import {
        changed: counts.changed,
        new: counts.new,
        remarks,
        same: counts.same,
        translations: u64::from(file.translations),
    };
    pass_gate(alloc, tables, today, done)
}

/// Imports a file that was read, or refuses it if one of its rows cannot be placed or there is no room for the new
/// ones.
fn import_read<P: Places, S: Alter>(
    alloc: Global,
    tables: &mut Tables<P, S>,
    today: Day,
    source: &Text,
    file: &File,
) -> Result<Result<Done, Refusal>, StoreFault>
    requires few { length file.now.rows ≤ most_rows }
    ensures { (bytes : Bytes) → file_of bytes ≡ Ok file.now → PerformsKnowing P.represents P.version S.Store
        (λ s. (today ≡ s.day) × (is_source source.now ≡ true)) (command.Import source.now bytes)
        tables.old tables.new result }
{
    let rows = file.rows.as_slice();
    let catalogued = known_units(alloc, tables, source, rows)?;
    let new = match plan(alloc, tables, &catalogued, rows)? {
        Planned::Fits { new } => new,
        Planned::Faulty { row, cause } => {
            let cause = cause.number();
            return Ok(Err(Refusal::BadFile { row, cause }));
        }
    };
    let Some(next) = next_with_room(alloc, tables, new)? else {
        return Ok(Err(Refusal::Full));
    };
    let import = Import {
        source,
        rows,
        catalogued: &catalogued,
        next,
    };
    let outcome = enter_rows(alloc, tables, &import)?;
    judge(alloc, tables, today, file, &outcome)
}

/// Imports a file of a source into the catalogue. A unit of this source that exists gets the file's values, blank ones
/// too, and keeps its place, status and closure. A new unit is added as the last below its parent, or as the last top,
/// with the status of its row and no closure. No unit is removed. Tells the remarks, and how many rows changed a unit,
/// made a new one, left one as it was, or are translations. Refuses a bad file with its row and cause, and an import
/// that would make the office too full, or close a container to the reader who has it. After a refusal some rows may
/// have been entered, so the caller must roll the transaction back. `today` must be the office's day, and `source` a
/// well-formed name.
pub fn import<P: Places, S: Alter>(
    alloc: Global,
    tables: &mut Tables<P, S>,
    today: Day,
    source: &Text,
    file: &[u8],
) -> Result<Result<Done, Refusal>, StoreFault>
    ensures { PerformsKnowing P.represents P.version S.Store (λ s. (today ≡ s.day) × (is_source source.now ≡ true))
        (command.Import source.now file.now) tables.old tables.new result }
{
    match read_file(alloc, file) {
        Ok(read) => import_read(alloc, tables, today, source, &read),
        Err(fault) => match fault {
            FileFault::Bad { row, cause } => Ok(Err(Refusal::BadFile { row, cause })),
            FileFault::Memory => Err(StoreFault::Memory),
        },
    }
}
