//! What units' own rows tell, before any of their texts is read.

ghost use Rattle.std.specs.Prelude.{◌≡◌, find};
ghost use Rattle.tree_core.specs.Forest.{nodes};
ghost use Rattle.catalogue_core.specs.Bounds.{IsKept};
ghost use Rattle.catalogue_core.specs.Units.{has_id};
ghost use Rattle.office_tables.specs.Calls.{Answers};
ghost use Rattle.office_tables.specs.Premises.{◌within◌gives◌};
ghost use Rattle.catalogue_statements.specs.Representation.{Represents};
ghost use Rattle.public_queries.specs.OwnRows.{published_standing};

use catalogue_statements::row_types::Standing;
use catalogue_statements::units::find_standing;
use catalogue_store::Places;
use isad_core::Number;
use office_tables::{StoreFault, Tables};
use sqlite::Alter;
use std::alloc::Global;

/// What the unit's row says of it, or none if it is a draft or there is no such unit. The units above it are not looked
/// at.
pub(crate) fn find_published<P: Places, S: Alter>(
    alloc: Global,
    tables: &mut Tables<P, S>,
    unit: Number,
) -> Result<Option<Standing>, StoreFault>
    ensures answers { Answers S.Store (Represents P.represents P.version) tables.old tables.new result
        within IsKept gives λ _ c told. told ≡ published_standing (find (has_id unit) (nodes c.forest)) }
{
    let Some(standing) = find_standing(alloc, tables, unit)? else {
        return Ok(None);
    };
    if standing.draft {
        return Ok(None);
    }
    Ok(Some(standing))
}
