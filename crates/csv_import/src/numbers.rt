//! The numbers of units by their numbers in their source.

ghost use Rattle.std.specs.Prelude.{◌≡◌, ◌||◌, true, OnOk};
ghost use Rattle.std.specs.BTreeMap.{get_by_text};
ghost use Rattle.std.specs.BTreeSet.{contains_text};
ghost use Rattle.std.specs.Str.{bytes_eq};
ghost use Rattle.isad_core.specs.Texts.{Bytes};
ghost use Rattle.catalogue_core.specs.GoodCatalogues.{AreGoodUnits};
ghost use Rattle.catalogue_core.specs.EntryByRow.{number_there};
ghost use Rattle.office_tables.specs.Calls.{Answers};
ghost use Rattle.office_tables.specs.Premises.{◌within◌gives◌};
ghost use Rattle.csv_import.specs.RowEntry.{RepresentsEntering};
ghost use Rattle.csv_import.specs.KnownUnits.{IsAsked, KnowsAsked, KnowsUnits};

use crate::legacy::{Legacies, UnitNumbers, kept_number, note};
use atom_csv::{Row, remember};
use catalogue_store::{Places, known};
use isad_core::{Number, Text};
use office_tables::{StoreFault, Tables};
use sqlite::Alter;
use std::alloc::Global;

/// The number of the unit that has this number in the source, if it is catalogued.
fn number_of<P: Places, S: Alter>(
    alloc: Global,
    tables: &mut Tables<P, S>,
    source: &Text,
    legacy: &Text,
) -> Result<Option<Number>, StoreFault>
    ensures answers { Answers S.Store (RepresentsEntering P.version) tables.old tables.new result
        within AreGoodUnits gives λ _ c found. AreGoodUnits c → found ≡ number_there c source.now legacy.now }
{
    known(alloc, tables, source, legacy)
}

/// Looks up the unit that has this number in the source, unless it was asked for before. If it is catalogued, its
/// number is kept.
fn look_up<P: Places, S: Alter>(
    alloc: Global,
    tables: &mut Tables<P, S>,
    source: &Text,
    asked: &mut Legacies,
    numbers: &mut UnitNumbers,
    legacy: &Text,
) -> Result<(), StoreFault>
    ensures answers { Answers S.Store (RepresentsEntering P.version) tables.old tables.new result
        within AreGoodUnits
        gives λ _ c _. AreGoodUnits c → KnowsAsked c source.now (contains_text asked.old) (get_by_text numbers.old)
        → KnowsAsked c source.now (contains_text asked.new) (get_by_text numbers.new) }
    ensures asked { OnOk result ((q : Bytes) → contains_text asked.new q
        ≡ (bytes_eq q legacy.now || contains_text asked.old q)) }
{
    if !note(asked, alloc, legacy)? {
        return Ok(());
    }
    let Some(unit) = number_of(alloc, tables, source, legacy)? else {
        return Ok(());
    };
    remember(numbers, alloc, legacy, unit)?;
    Ok(())
}

/// Looks up the unit of a row, and if the row is new, the parent that it names. A row whose unit is catalogued is not
/// placed, so its parent is not looked up.
fn look_up_row<P: Places, S: Alter>(
    alloc: Global,
    tables: &mut Tables<P, S>,
    source: &Text,
    asked: &mut Legacies,
    numbers: &mut UnitNumbers,
    row: &Row,
) -> Result<(), StoreFault>
    ensures answers { Answers S.Store (RepresentsEntering P.version) tables.old tables.new result
        within AreGoodUnits
        gives λ _ c _. AreGoodUnits c → KnowsAsked c source.now (contains_text asked.old) (get_by_text numbers.old)
        → KnowsAsked c source.now (contains_text asked.new) (get_by_text numbers.new)
        × IsAsked c source.now (contains_text asked.new) row.now }
    ensures more { OnOk result ((q : Bytes) → contains_text asked.old q ≡ true → contains_text asked.new q ≡ true) }
{
    look_up(alloc, tables, source, asked, numbers, &row.legacy)?;
    if kept_number(numbers, &row.legacy).is_some() {
        return Ok(());
    }
    let Some(parent) = &row.parent else {
        return Ok(());
    };
    look_up(alloc, tables, source, asked, numbers, parent)?;
    Ok(())
}

/// The numbers of the units of these rows, and of the parents that new rows name, by their numbers in the source. One
/// that is not catalogued is left out. Each is looked up once, and kept for all later steps.
pub(crate) fn known_units<P: Places, S: Alter>(
    alloc: Global,
    tables: &mut Tables<P, S>,
    source: &Text,
    rows: &[Row],
) -> Result<UnitNumbers, StoreFault>
    ensures answers { Answers S.Store (RepresentsEntering P.version) tables.old tables.new result
        within AreGoodUnits
        gives λ _ c numbers. AreGoodUnits c → KnowsUnits c source.now rows.now (get_by_text numbers) }
{
    let mut asked = Legacies::new(alloc);
    let mut numbers = UnitNumbers::new(alloc);
    for row in rows {
        look_up_row(alloc, tables, source, &mut asked, &mut numbers, row)?;
    }
    Ok(numbers)
}
