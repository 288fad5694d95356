//! The check of the catalogue's tables.
#![tactic(auto, using(crate::proofs::ExaminationEnds::passes, crate::proofs::ExaminationEnds::passes_later))]

ghost use Rattle.std.specs.Prelude.{◌≡◌};
ghost use Rattle.row_decoding.specs.Examinations.{Examines};
ghost use Rattle.integrity_checks.specs.CatalogueChecks.{catalogue_defect};
ghost use Rattle.integrity_checks.specs.CatalogueJudgments.{FollowsCatalogueRule, defect_of_contents};
ghost use Rattle.integrity_checks.specs.CatalogueJudgments.{good_containment_in};

use crate::catalogue_defect::CatalogueDefect;
use crate::containers::count_if_numbered;
use crate::elements::elements_are_good;
use crate::housing::housings_are_good;
use crate::units::units_are_good;
use crate::{CheckedPlaces, Placed};
use office_tables::{StoreFault, Tables, Versioned};
use sqlite::Alter;
use std::alloc::Global;

/// Whether the containers, and the rows of the units in them, can be read and can be a catalogue's. Assumes that each
/// unit can be read.
fn containers_are_good<P: Versioned, S: Alter>(
    tables: &mut Tables<P, S>,
) -> Result<bool, StoreFault>
    ensures { Examines S.Store tables.old tables.new result (FollowsCatalogueRule good_containment_in) }
{
    let Some(containers) = count_if_numbered(tables)? else {
        return Ok(false);
    };
    housings_are_good(tables, containers)
}

/// The first of the elements and the containers that is defective, or none. Assumes that each unit can be read.
fn check_contents<P: Versioned, S: Alter>(
    tables: &mut Tables<P, S>,
) -> Result<Option<CatalogueDefect>, StoreFault>
    ensures { Examines S.Store tables.old tables.new result (FollowsCatalogueRule defect_of_contents) }
{
    if !elements_are_good(tables)? {
        return Ok(Some(CatalogueDefect::Elements));
    }
    if !containers_are_good(tables)? {
        return Ok(Some(CatalogueDefect::Containers));
    }
    Ok(None)
}

/// The first part of the catalogue, in the order places, units, elements, containers, of which a row cannot be read or
/// whose rows no catalogue can have; none if there is no such part. `next` is the number that the next new unit gets.
/// Reads all tables completely, unless a defect is found before. Holds no more at once than the places, or the numbers
/// of the units.
pub fn load_check<P: CheckedPlaces, S: Alter>(
    alloc: Global,
    tables: &mut Tables<P, S>,
    next: u64,
) -> Result<Option<CatalogueDefect>, StoreFault>
    ensures { Examines S.Store tables.old tables.new result (λ db told. told ≡ catalogue_defect P.version next db) }
{
    let Some(placed) = P::check(alloc, tables)? else {
        return Ok(Some(CatalogueDefect::Places));
    };
    let Placed { units, height } = placed;
    if !units_are_good(alloc, tables, units, height, next)? {
        return Ok(Some(CatalogueDefect::Units));
    }
    check_contents(tables)
}
