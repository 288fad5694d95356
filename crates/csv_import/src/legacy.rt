//! What is kept about units and rows, by their numbers in their source.

ghost use Rattle.std.specs.Prelude.{◌≡◌, ◌||◌, not, IfOk, OnOk};
ghost use Rattle.std.specs.BTreeMap.{get_by_text};
ghost use Rattle.std.specs.BTreeSet.{contains_text};
ghost use Rattle.std.specs.Str.{bytes_eq};
ghost use Rattle.isad_core.specs.Texts.{Bytes};

use isad_core::{Number, Text};
use std::alloc::{AllocError, Global};
use std::collections::{BTreeMap, BTreeSet};

/// The number of each of some units, by its number in its source.
pub(crate) type UnitNumbers = BTreeMap<String, Number>;

/// How deep rows right below each of some units or rows lie, by its number in its source.
pub(crate) type DepthsBelow = BTreeMap<String, u64>;

/// Some numbers in a source.
pub(crate) type Legacies = BTreeSet<String>;

/// The number that is kept for a unit, if one is.
pub(crate) fn kept_number(kept: &UnitNumbers, legacy: &Text) -> Option<Number>
    ensures { result ≡ get_by_text kept.now legacy.now }
{
    kept.get(legacy.as_str()).copied()
}

/// Adds a number in a source to those that were noted, and returns whether it is new among them.
pub(crate) fn note(noted: &mut Legacies, alloc: Global, legacy: &Text) -> Result<bool, AllocError>
    ensures new { IfOk result (λ new. new ≡ not (contains_text noted.old legacy.now)) }
    ensures noted { OnOk result ((q : Bytes) → contains_text noted.new q
        ≡ (bytes_eq q legacy.now || contains_text noted.old q)) }
{
    let key = String::from_str(alloc, legacy.as_str())?;
    let is_new = noted.insert(key)?;
    Ok(is_new)
}
