//! What a unit's own line shows of it.

ghost use Rattle.std.specs.Prelude.{◌≡◌, [], find, nat_eq, option_map, unwrap_or, IfOk};
ghost use Rattle.tree_core.specs.Forest.{nodes};
ghost use Rattle.catalogue_core.specs.Bounds.{IsKept};
ghost use Rattle.catalogue_core.specs.Units.{has_id};
ghost use Rattle.office_tables.specs.Calls.{StoreAnswers};
ghost use Rattle.office_tables.specs.Premises.{◌within◌gives◌};
ghost use Rattle.catalogue_statements.specs.Representation.{Represents};
ghost use Rattle.catalogue_statements.specs.declared.row_types.Element.{Element};
ghost use Rattle.catalogue_store.specs.Heads.{head_of};

use catalogue_statements::elements::first_elements;
use catalogue_statements::row_types::Element;
use catalogue_statements::units::find_standing;
use isad_core::{Day, Number, Text};
use office_tables::{StoreFault, Tables};
use sqlite::Alter;
use std::alloc::{AllocError, Global};
use tree_places::Places;

/// A unit as its head line shows it. A text that the unit lacks is empty.
#[derive(Debug, PartialEq, Drop)]
pub struct Head {
    pub id: Number,
    pub level: Text,
    pub identifier: Text,
    pub title: Text,
    pub draft: bool,
    /// The first day on which its closure no longer holds, or none if it has no closure.
    pub until: Option<Day>,
}

/// The number of the element that contains a unit's reference code.
const REFERENCE_CODE: u32 = 1;

/// The number of the element that contains a unit's title.
const TITLE: u32 = 2;

/// The text of the element with this number among these, or an empty text.
fn text_among(alloc: Global, elements: &[Element], element: u32) -> Result<Text, AllocError>
    ensures { IfOk result (λ text. text ≡ unwrap_or (option_map (λ (e : Element). e.value)
        (find (λ (e : Element). nat_eq e.k element) elements.now)) []) }
{
    match elements.iter().find(|found| found.k == u64::from(element)) {
        Some(found) => Ok(found.value.clone()?),
        None => Ok(Text(String::new(alloc))),
    }
}

/// The head of the unit with this number, or none if there is no such unit.
pub fn find_head<P: Places, S: Alter>(
    alloc: Global,
    tables: &mut Tables<P, S>,
    unit: Number,
) -> Result<Option<Head>, StoreFault>
    ensures answers { StoreAnswers S.Store (Represents P.represents P.version) tables.old tables.new result
        within IsKept gives λ _ c head. head ≡ option_map head_of (find (has_id unit) (nodes c.forest)) }
{
    let Some(standing) = find_standing(alloc, tables, unit)? else {
        return Ok(None);
    };
    let elements = first_elements(alloc, tables, unit, Number::from(TITLE))?;
    let identifier = text_among(alloc, &elements, REFERENCE_CODE)?;
    let title = text_among(alloc, &elements, TITLE)?;
    Ok(Some(Head {
        id: unit,
        level: standing.level,
        identifier,
        title,
        draft: standing.draft,
        until: standing.until,
    }))
}
