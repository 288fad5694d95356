//! Whether units are withheld from a reader, by their marks in memory and the reader's permits.

ghost use Rattle.std.specs.Prelude.{◌≡◌, ℕ, Bool, IfOk, map, true};
ghost use Rattle.std.specs.List.{AllByRecursion, list_all};
ghost use Rattle.tree_core.specs.Forest.{Forest};
ghost use Rattle.catalogue_core.specs.OpenMarks.{is_clean_for, is_opened_above, with_permit};
ghost use Rattle.catalogue_core.specs.UnitLookup.{has_unit};
ghost use Rattle.catalogue_core.specs.Units.{«Unit» as Described};
ghost use Rattle.known_units.specs.KnownUnits.{KnowsUnits};
ghost use Rattle.access.specs.Openness.{allows};
ghost use Rattle.access.specs.ReadersMarks.{AreReadersMarks};

use desk_store::Permit;
use isad_core::{Day, Number};
use known_forest::KnownForest;
use known_units::{branch_marks, path_marks};
use std::alloc::{AllocError, Global};
use visibility::{Mark, clean_contents, clean_path, has_permit};

/// Whether one of these permits is for the unit and valid on this day.
fn is_permitted(permits: &[Permit], unit: Number, today: Day) -> bool
    ensures { result ≡ allows today permits.now unit }
{
    permits.iter().any(|permit| permit.unit == unit && today.number() <= permit.until.number())
}

/// The marks, each with `permit` set to whether there is a permit for its unit that is valid on this day.
fn with_permits(
    alloc: Global,
    marks: &[Mark],
    permits: &[Permit],
    today: Day,
) -> Result<Vec<Mark>, AllocError>
    ensures { IfOk result (λ v. v.items ≡ map (with_permit (allows today permits.now)) marks.now) }
{
    let mut all = Vec::new(alloc);
    for mark in marks {
        let permit = is_permitted(permits, mark.id, today);
        all.push(Mark { permit, ..*mark })?;
    }
    Ok(all)
}

/// Whether there is a permit for a unit on the path above the last one.
fn is_permitted_above(path: &[Mark]) -> bool
    ensures { result ≡ is_opened_above path.now }
{
    match path.split_last() {
        None => false,
        Some((_, above)) => has_permit(above),
    }
}

/// Whether nothing withholds a unit, nor a unit that takes its containers from it, on this day from the reader whose
/// permits the marks tell. The marks must be those of the unit's path, and of the unit with all below it.
fn is_clean(path: &[Mark], branch: &[Mark], today: Day) -> bool
    ensures { (permitted : ℕ → Bool) (f : Forest Described) (u : ℕ) → has_unit f u ≡ true
        → AreReadersMarks permitted f u path.now branch.now → result ≡ is_clean_for permitted today f u }
{
    let above = is_permitted_above(path);
    let day = today.number();
    let is_within = clean_contents(branch, day, above);
    clean_path(path, day) && is_within
}

/// Whether nothing withholds the unit, nor a unit that takes its containers from it, on this day from a reader with
/// these permits. Without permits no mark is copied but those of the path.
fn is_unit_open(
    alloc: Global,
    known: &KnownForest,
    unit: Number,
    permits: &[Permit],
    today: Day,
) -> Result<bool, AllocError>
    ensures { IfOk result (λ yes. (f : Forest Described) → KnowsUnits f known.now → has_unit f unit ≡ true
        → yes ≡ is_clean_for (allows today permits.now) today f unit) }
{
    let path = path_marks(alloc, known, unit)?;
    let branch = branch_marks(known, unit);
    if permits.is_empty() {
        return Ok(is_clean(&path, branch, today));
    }
    let own_path = with_permits(alloc, &path, permits, today)?;
    let own_branch = with_permits(alloc, branch, permits, today)?;
    Ok(is_clean(&own_path, &own_branch, today))
}

/// Whether this is so of all these units. The first of which it is not ends the search.
pub(crate) fn are_units_open(
    alloc: Global,
    known: &KnownForest,
    units: &[Number],
    permits: &[Permit],
    today: Day,
) -> Result<bool, AllocError>
    ensures { IfOk result (λ yes. (f : Forest Described) → KnowsUnits f known.now
        → AllByRecursion (λ u. has_unit f u ≡ true) units.now
        → yes ≡ list_all (is_clean_for (allows today permits.now) today f) units.now) }
{
    for unit in units {
        if !is_unit_open(alloc, known, *unit, permits, today)? {
            return Ok(false);
        }
    }
    Ok(true)
}
