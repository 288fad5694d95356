//! The places of a file's rows.
ghost use Rattle.std.specs.Prelude.{◌≡◌, ◌≤◌, ◌∷◌, []};
ghost use Rattle.std.specs.Prelude.{IfOk, IfErr, Some, option_copied};
ghost use Rattle.std.specs.BTreeMap.{get_by_text};
ghost use Rattle.std.specs.List.{All};
ghost use Rattle.isad_core.specs.Limits.{most_deep};
ghost use Rattle.atom_csv.specs.Causes.{cause_number};
ghost use Rattle.atom_csv.specs.ReadProgress.{IfBad};
ghost use Rattle.finding_aids.specs.Places.{ArePlaced, faults};
ghost use Rattle.finding_aids.specs.Places as spec;

use atom_csv::{Cause, FileFault, Row, remember};
use isad_core::{Text, limits};
use std::alloc::Global;
use std::collections::BTreeMap;

/// The greatest depth of a unit; a top has depth 1.
const MAX_DEPTH: u32 = limits::MOST_DEEP as u32;

/// The place of a row among the rows of a file.
#[derive(Clone, Copy)]
pub struct RowPosition {
    /// The index of its parent's row, or none for a top.
    pub parent: Option<usize>,
    /// Its depth; a top has depth 1.
    pub depth: u32,
}

/// The index of the last row with each legacyId.
type Known = BTreeMap<String, usize>;

/// The place of each row, in their order, below the nearest row above it that has its parent's legacyId. If some row
/// has no place, returns the first such row with its cause: 11 if its parent's row does not exist above it, or 12 if
/// the row would lie deeper than 64.
pub fn place_rows(alloc: Global, rows: &[Row]) -> Result<Vec<RowPosition>, FileFault>
    ensures none_bad { IfOk result (λ places. faults rows.now ≡ []) }
    ensures places { IfOk result (λ places. ArePlaced rows.now places.items) }
    ensures shallow { IfOk result (λ places. All (λ place. place.depth ≤ most_deep) places.items) }
    ensures bad { IfErr result (λ e. IfBad e (λ row cause.
        (later : _) × (faults rows.now ≡ (row, cause) ∷ later))) }
{
    let mut known: Known = BTreeMap::new(alloc);
    let mut places = Vec::new(alloc);
    for (index, row) in rows.iter().enumerate() {
        let Some(place) = place_of(&known, places.as_slice(), row.parent.as_ref()) else {
            return Err(bad(row, Cause::NoParent));
        };
        if place.depth > MAX_DEPTH {
            return Err(bad(row, Cause::TooDeep));
        }
        places.push(place)?;
        remember(&mut known, alloc, &row.legacy, index)?;
    }
    Ok(places)
}

/// The fault of a row.
fn bad(row: &Row, cause: Cause) -> FileFault
    ensures { result ≡ FileFault.Bad row.now.row (cause_number cause) }
{
    FileFault::Bad {
        row: row.row,
        cause: cause.number(),
    }
}

/// The place below this parent, if the parent is known, or the place of a top.
fn place_of(known: &Known, places: &[RowPosition], parent: Option<&Text>) -> Option<RowPosition>
    requires { All (λ p. p.depth ≤ most_deep) places.now }
    ensures { result ≡ spec.place_below (get_by_text known.now) places.now (option_copied parent.entry) }
{
    match parent {
        None => Some(RowPosition {
            parent: None,
            depth: 1,
        }),
        Some(parent) => place_at(places, index_of(known, parent)?),
    }
}

/// The index of the last row with this legacyId.
fn index_of(known: &Known, legacy: &Text) -> Option<usize>
    ensures { result ≡ get_by_text known.now legacy.now }
{
    known.get(legacy.as_str()).copied()
}

/// The place right below a row.
fn place_at(places: &[RowPosition], index: usize) -> Option<RowPosition>
    requires { All (λ p. p.depth ≤ most_deep) places.now }
    ensures { result ≡ spec.place_at places.now index }
{
    let above = places.get(index)?;
    Some(RowPosition {
        parent: Some(index),
        depth: above.depth + 1,
    })
}
