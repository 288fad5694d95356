//! The units of the rows of a file, and those that the rows add, each with its parent. Nothing is entered.

ghost use Rattle.std.specs.Prelude.{◌≡◌, ℕ, List, option_and_then, IfOk, IfErr};
ghost use Rattle.std.specs.BTreeMap.{get_by_text};
ghost use Rattle.isad_core.specs.Texts.{Bytes};
ghost use Rattle.atom_csv.specs.declared.file.Row.{«Row» as RowTold};
ghost use Rattle.catalogue_core.specs.CatalogueMerge.{Catalogue, parent_number};
ghost use Rattle.csv_import.specs.Arrivals.{KnowsNumbers, arrivals_of};
ghost use Rattle.csv_import.specs.KnownUnits.{KnowsUnits, TellsParent, units_from};

use crate::legacy::{UnitNumbers, kept_number};
use crate::pending_import::Import;
use atom_csv::{Row, remember};
use isad_core::Number;
use office_tables::{StoreFault, number_after};
use std::alloc::Global;
use tree_core::Arrival;

/// The number of a new row's parent, if it names one: that of a new row above it, or else of a catalogued unit.
fn parent_of(catalogued: &UnitNumbers, numbers: &UnitNumbers, row: &Row) -> Option<Number>
    ensures answers { (c : Catalogue) (source : Bytes) → TellsParent c source (get_by_text catalogued.now) row.now
        → (next : ℕ) (above : List RowTold) → KnowsNumbers c.forest source next above (get_by_text numbers.now)
        → result ≡ option_and_then (parent_number c.forest source next above) row.now.parent }
{
    let Some(parent) = &row.parent else {
        return None;
    };
    if let Some(unit) = numbers.get(parent.as_str()) {
        return Some(*unit);
    }
    kept_number(catalogued, parent)
}

/// What the rows of a file bring: the unit of each row, and those that are new, each with its parent.
#[derive(Drop)]
pub(crate) struct FileUnits {
    pub(crate) units: Vec<Number>,
    pub(crate) arrivals: Vec<Arrival>,
}

/// The units of the rows of a file, and those that the rows add, numbered from `import.next` on in file order.
/// `import.catalogued` must tell which units of the rows, and which parents of new rows, are catalogued. Fails only for
/// want of memory.
pub(crate) fn number_units(alloc: Global, import: &Import<'_>) -> Result<FileUnits, StoreFault>
    ensures units { IfOk result (λ found. found.units.items
        ≡ units_from (get_by_text import.now.catalogued.now) import.now.next import.now.rows.now) }
    ensures arrivals { IfOk result (λ found. (c : Catalogue)
        → KnowsUnits c import.now.source.now import.now.rows.now (get_by_text import.now.catalogued.now)
        → found.arrivals.items ≡ arrivals_of c.forest import.now.source.now import.now.next import.now.rows.now) }
    ensures faults { IfErr result (λ e. e ≡ StoreFault.Memory) }
{
    let mut numbers = UnitNumbers::new(alloc);
    let mut arrivals = Vec::new(alloc);
    let mut units = Vec::new(alloc);
    for row in import.rows {
        let next = number_after(import.next, arrivals.len() as u64)?;
        match kept_number(import.catalogued, &row.legacy) {
            Some(unit) => units.push(unit)?,
            None => {
                let parent = parent_of(import.catalogued, &numbers, row);
                remember(&mut numbers, alloc, &row.legacy, next)?;
                arrivals.push(Arrival { unit: next, parent })?;
                units.push(next)?;
            }
        }
    }
    Ok(FileUnits { units, arrivals })
}
