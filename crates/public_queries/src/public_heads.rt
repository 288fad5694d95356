//! The heads of units that are not drafts. Of a draft no row is read where the marks of all units are known.

ghost use Rattle.std.specs.Prelude.{◌≡◌, [], find, filter, filter_map, map, nat_eq, option_map, unwrap_or, IfOk};
ghost use Rattle.tree_core.specs.Forest.{Forest, nodes};
ghost use Rattle.tree_core.specs.Tops.{part_below, tops};
ghost use Rattle.catalogue_core.specs.Bounds.{IsKept};
ghost use Rattle.catalogue_core.specs.Units.{«Unit» as Described, has_id};
ghost use Rattle.office_tables.specs.Calls.{Answers};
ghost use Rattle.office_tables.specs.Premises.{◌within◌gives◌};
ghost use Rattle.catalogue_statements.specs.Representation.{Represents};
ghost use Rattle.catalogue_statements.specs.declared.row_types.Element.{Element};
ghost use Rattle.catalogue_store.specs.Heads.{head_of};
ghost use Rattle.known_units.specs.KnownUnits.{KnowsUnits};
ghost use Rattle.public_queries.specs.HeadLines.{is_published, public_head, published_units};

use crate::own_rows::find_published;
use catalogue_statements::elements::first_elements;
use catalogue_statements::row_types::Element;
use catalogue_store::{Head, Places};
use isad_core::{Number, Text};
use known_forest::KnownForest;
use known_units::units_below;
use office_tables::{StoreFault, Tables};
use sqlite::Alter;
use std::alloc::{AllocError, Global};

/// The number of the element that contains a unit's reference code.
const REFERENCE_CODE: u32 = 1;

/// The number of the element that contains a unit's title.
const TITLE: u32 = 2;

/// The text of the element with this number among these, or an empty text.
fn text_among(alloc: Global, elements: &[Element], element: u32) -> Result<Text, AllocError>
    ensures { IfOk result (λ text. text ≡ unwrap_or (option_map (λ (e : Element). e.value)
        (find (λ (e : Element). nat_eq e.k element) elements.now)) []) }
{
    match elements.iter().find(|found| found.k == u64::from(element)) {
        Some(found) => Ok(found.value.clone()?),
        None => Ok(Text::new(alloc, "")?),
    }
}

/// The head of the unit with this number, or none if it is a draft or there is no such unit.
fn find_public_head<P: Places, S: Alter>(
    alloc: Global,
    tables: &mut Tables<P, S>,
    unit: Number,
) -> Result<Option<Head>, StoreFault>
    ensures answers { Answers S.Store (Represents P.represents P.version) tables.old tables.new result
        within IsKept gives λ _ c head. head ≡ public_head (find (has_id unit) (nodes c.forest)) }
{
    let Some(standing) = find_published(alloc, tables, unit)? else {
        return Ok(None);
    };
    let elements = first_elements(alloc, tables, unit, Number::from(TITLE))?;
    let identifier = text_among(alloc, &elements, REFERENCE_CODE)?;
    let title = text_among(alloc, &elements, TITLE)?;
    Ok(Some(Head {
        id: unit,
        level: standing.level,
        identifier,
        title,
        draft: standing.draft,
        until: standing.until,
    }))
}

/// The heads of those of these units that are not drafts, in their order. A number that no unit has is left out.
pub(crate) fn public_heads<P: Places, S: Alter>(
    alloc: Global,
    tables: &mut Tables<P, S>,
    units: &[Number],
) -> Result<Vec<Head>, StoreFault>
    ensures answers { Answers S.Store (Represents P.represents P.version) tables.old tables.new result
        within IsKept gives λ _ c heads. heads.items
        ≡ filter_map (λ unit. public_head (find (has_id unit) (nodes c.forest))) units.now }
{
    let mut heads = Vec::new(alloc);
    for unit in units {
        if let Some(head) = find_public_head(alloc, tables, *unit)? {
            heads.push(head)?;
        }
    }
    Ok(heads)
}

/// Whether there is this unit, and it is no draft.
fn is_published(forest: &KnownForest, unit: Number) -> bool
    ensures { (f : Forest Described) → KnowsUnits f forest.now → result ≡ is_published (find (has_id unit) (nodes f)) }
{
    match forest.mark(unit) {
        None => false,
        Some(mark) => !mark.draft,
    }
}

/// Those of these units that are not drafts, in their order.
fn published(
    alloc: Global,
    forest: &KnownForest,
    units: &[Number],
) -> Result<Vec<Number>, AllocError>
    ensures { IfOk result (λ ids. (f : Forest Described) → KnowsUnits f forest.now
        → ids.items ≡ filter (λ id. is_published (find (has_id id) (nodes f))) units.now) }
{
    let mut ids = Vec::new(alloc);
    for unit in units {
        if is_published(forest, *unit) {
            ids.push(*unit)?;
        }
    }
    Ok(ids)
}

/// The heads of the units right below this one that are not drafts, or of such tops if no unit is given, in their order.
/// Empty if there is no such unit.
pub(crate) fn public_heads_below<P: Places, S: Alter>(
    alloc: Global,
    tables: &mut Tables<P, S>,
    forest: &KnownForest,
    unit: Option<Number>,
) -> Result<Vec<Head>, StoreFault>
    ensures answers { Answers S.Store (Represents P.represents P.version) tables.old tables.new result
        within IsKept
        gives λ _ c heads. KnowsUnits c.forest forest.now
        → heads.items ≡ map head_of (published_units (tops (part_below has_id unit c.forest))) }
{
    let below = units_below(alloc, forest, unit)?;
    let units = published(alloc, forest, &below)?;
    public_heads(alloc, tables, &units)
}
