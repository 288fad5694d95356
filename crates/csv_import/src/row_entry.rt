//! The rows of a file, entered into the tables of a catalogue.

ghost use Rattle.std.specs.Prelude.{◌≡◌, ◌+◌, ◌<◌, ◌≤◌, ◌^◌, [], ◌∷◌, find, length, map, None, Some};
ghost use Rattle.std.specs.Prelude.{IfOk};
ghost use Rattle.sqlite.specs.Held.{state};
ghost use Rattle.sqlite.specs.State.{HasCleanDisk};
ghost use Rattle.tree_core.specs.Forest.{nodes};
ghost use Rattle.catalogue_core.specs.Descriptions.{with_values};
ghost use Rattle.catalogue_core.specs.Intake.{same_values, catalogued_unit};
ghost use Rattle.catalogue_core.specs.CatalogueMerge.{Catalogue};
ghost use Rattle.catalogue_core.specs.EntryByRow.{number_there, with_new};
ghost use Rattle.catalogue_core.specs.Units.{«Unit» as Described, has_id};
ghost use Rattle.catalogue_statements.specs.Representation.{RepresentsNumbered, catalogue_trees, described_trees};
ghost use Rattle.catalogue_statements.specs.declared.office.OfficeRow.{OfficeRow};
ghost use Rattle.office_tables.specs.Calls.{Updates};
ghost use Rattle.office_tables.specs.Premises.{◌when◌gives◌};
ghost use Rattle.csv_import.specs.PendingImport.{AreNext, Brings, ReadsCatalogue, IsPending, IsTurnOf, counted_in};
ghost use Rattle.csv_import.specs.PendingImport.{imported};
ghost use Rattle.csv_import.specs.RowEntry.{RepresentsEntering, RepresentsLegible, catalogue_after};
ghost use Rattle.csv_import.specs.Turns.{MayChange, MayCome, count_entry, entry_of};

use crate::arrivals::{FileUnits, number_units};
use crate::pending_import::Import;
use atom_csv::Row;
use catalogue_statements::office::set_next_unit;
use catalogue_store::{NewUnit, Places, enter_unit, enter_values, values as values_of};
use isad_core::{Number, Text, Values};
use office_tables::{StoreFault, Tables, number_after};
use sqlite::Alter;
use std::alloc::Global;
use tree_core::Arrival;

/// How many rows of a file changed a unit, added one, or left one as it was.
#[derive(Clone, Copy, Debug, PartialEq, Eq)]
pub struct Counts {
    pub changed: u64,
    pub new: u64,
    pub same: u64,
}

/// The result of entering the rows of a file: how many had each effect, and the unit of each row.
#[derive(Drop)]
pub(crate) struct Outcome {
    pub(crate) counts: Counts,
    pub(crate) units: Vec<Number>,
}

/// The effect of a row.
#[derive(Clone, Copy)]
enum Entry {
    /// Its unit got other values.
    Changed,
    /// It added a unit.
    New,
    /// Its unit already had its values.
    Same,
}

/// Whether these are the same values.
fn are_same(some: &Values, others: &Values) -> bool
    ensures { result ≡ same_values some.now others.now }
{
    some == others
}

/// Gives a unit the values of its row, if they differ.
fn enter_known<P: Places, S: Alter>(
    alloc: Global,
    tables: &mut Tables<P, S>,
    unit: Number,
    values: &Values,
) -> Result<Entry, StoreFault>
    ensures updates { Updates S.Store described_trees (RepresentsEntering P.version) tables.old tables.new result
        when MayChange unit values.now gives with_values unit values.now }
    ensures told { HasCleanDisk (state S.Store tables.new) → (o : OfficeRow) (c : Catalogue)
        → RepresentsEntering P.version (state S.Store tables.old).now o c → MayChange unit values.now c
        → (u : Described) → find (has_id unit) (nodes c.forest) ≡ Some u
        → IfOk result (λ entry. entry ≡ entry_of (Some u) values.now) }
{
    let Some(found) = values_of(alloc, tables, unit)? else {
        return Err(StoreFault::Schema);
    };
    if are_same(&found.values, values) {
        return Ok(Entry::Same);
    }
    enter_values(alloc, tables, unit, values)?;
    Ok(Entry::Changed)
}

/// Adds the unit of a row.
fn enter_new<P: Places, S: Alter>(
    alloc: Global,
    tables: &mut Tables<P, S>,
    source: &Text,
    next: Number,
    row: &Row,
) -> Result<Entry, StoreFault>
    ensures updates { Updates S.Store described_trees (RepresentsEntering P.version) tables.old tables.new result
        when MayCome source.now row.now next gives with_new source.now row.now }
    ensures told { IfOk result (λ entry. entry ≡ entry_of None row.now.values) }
{
    let unit = NewUnit {
        id: next,
        source,
        legacy: &row.legacy,
        values: &row.values,
        draft: !row.published,
    };
    enter_unit(alloc, tables, &unit)?;
    Ok(Entry::New)
}

/// Enters a row. Its unit, which has this number, gets the row's values if it is catalogued, and otherwise is added. The
/// numbers from `import.next` on are those of new units.
fn enter_row<P: Places, S: Alter>(
    alloc: Global,
    tables: &mut Tables<P, S>,
    import: &Import<'_>,
    unit: Number,
    row: &Row,
) -> Result<Entry, StoreFault>
    ensures updates { Updates S.Store described_trees (RepresentsEntering P.version) tables.old tables.new result
        when IsTurnOf import.now row.now unit gives catalogue_after import.now.source.now (row.now ∷ []) }
    ensures told { ReadsCatalogue S.Store (RepresentsEntering P.version) (IsTurnOf import.now row.now unit)
        tables.old tables.new result
        (λ c entry. entry ≡ entry_of (catalogued_unit c.forest import.now.source.now row.now) row.now.values) }
{
    if unit < import.next {
        return enter_known(alloc, tables, unit, &row.values);
    }
    enter_new(alloc, tables, import.source, unit, row)
}

/// The counts with one more row.
fn count(counts: Counts, became: Entry) -> Counts
    requires { counts.changed + counts.new + counts.same + 1 < 2 ^ 64 }
    ensures { result ≡ count_entry became counts }
{
    match became {
        Entry::Changed => Counts {
            changed: counts.changed + 1,
            ..counts
        },
        Entry::New => Counts {
            new: counts.new + 1,
            ..counts
        },
        Entry::Same => Counts {
            same: counts.same + 1,
            ..counts
        },
    }
}

/// Enters the rows, whose units are `units`, one after another. The places of new units are entered separately.
fn enter_each<P: Places, S: Alter>(
    alloc: Global,
    tables: &mut Tables<P, S>,
    import: &Import<'_>,
    units: &[Number],
) -> Result<Counts, StoreFault>
    ensures updates { Updates S.Store described_trees (RepresentsEntering P.version) tables.old tables.new result
        when AreNext import.now units.now gives imported import.now }
    ensures counts { ReadsCatalogue S.Store (RepresentsEntering P.version) (AreNext import.now units.now)
        tables.old tables.new result
        (λ c counts. (counts ≡ counted_in c import.now)
        × (import.now.next + counts.new ≡ (imported import.now c).next)) }
    ensures few { IfOk result (λ counts. counts.new ≤ length import.now.rows.now) }
{
    let mut counts = Counts {
        changed: 0,
        new: 0,
        same: 0,
    };
    for (row, unit) in import.rows.iter().zip(units) {
        let became = enter_row(alloc, tables, import, *unit, row)?;
        counts = count(counts, became);
    }
    Ok(counts)
}

/// Enters the rows, whose units are `units`, and the places of the units that they add, all places at once.
fn enter_with_places<P: Places, S: Alter>(
    alloc: Global,
    tables: &mut Tables<P, S>,
    import: &Import<'_>,
    units: &[Number],
    arrivals: &[Arrival],
) -> Result<Counts, StoreFault>
    ensures updates { Updates S.Store catalogue_trees (RepresentsNumbered P.represents P.version)
        tables.old tables.new result
        when Brings import.now units.now arrivals.now gives imported import.now }
    ensures counts { ReadsCatalogue S.Store (RepresentsNumbered P.represents P.version)
        (Brings import.now units.now arrivals.now)
        tables.old tables.new result (λ c counts. counts ≡ counted_in c import.now) }
{
    P::add_all(alloc, tables, arrivals)?;
    let counts = enter_each(alloc, tables, import, units)?;
    let next = number_after(import.next, counts.new)?;
    set_next_unit(tables, next)?;
    Ok(counts)
}

/// Enters the rows one after another: the unit of a row gets the row's values, or is added with the next number. Each
/// row must have a place, there must be room for the new units, and what `import` tells of the catalogue must be right.
/// Returns how many rows had each effect, and each row's unit, in the order of the rows.
pub(crate) fn enter_rows<P: Places, S: Alter>(
    alloc: Global,
    tables: &mut Tables<P, S>,
    import: &Import<'_>,
) -> Result<Outcome, StoreFault>
    ensures updates { Updates S.Store catalogue_trees (RepresentsLegible P.represents P.version)
        tables.old tables.new result
        when IsPending import.now gives imported import.now }
    ensures finds { ReadsCatalogue S.Store (RepresentsLegible P.represents P.version) (IsPending import.now)
        tables.old tables.new
        result (λ c made. (made.counts ≡ counted_in c import.now) × (map Some made.units.items
        ≡ map (λ row. number_there (imported import.now c) import.now.source.now row.legacy) import.now.rows.now)) }
{
    let FileUnits { units, arrivals } = number_units(alloc, import)?;
    let counts = enter_with_places(alloc, tables, import, &units, &arrivals)?;
    Ok(Outcome { counts, units })
}
