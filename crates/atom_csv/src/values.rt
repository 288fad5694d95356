//! The values of the description in a record.
ghost use Rattle.std.specs.Prelude.{◌≡◌, IfOk, map};
ghost use Rattle.atom_csv.specs.Fields.{trimmed_fields};
ghost use Rattle.atom_csv.specs.Values.{nonblank, text_in_columns, values_of};
ghost use Rattle.atom_csv.specs.Values as spec;

use crate::boxes::boxes;
use crate::column::Column;
use crate::header::Header;
use crate::joined::join_entries;
use csv::StringRecord;
use isad_core::{Element, LINE_ELEMENTS, Text, Values};
use std::alloc::{AllocError, Global};
use std::array;

/// The text of an element, or `None` if it is empty.
fn optional(
    alloc: Global,
    header: &Header,
    row: &StringRecord,
    element: Element,
) -> Result<Option<Text>, AllocError>
    ensures { IfOk result (λ t. t ≡ nonblank (text_in_columns header.now (trimmed_fields row.now) element)) }
{
    let text = join_entries(alloc, header, row, element)?;
    if text.is_empty() {
        return Ok(None);
    }
    Ok(Some(Text(text)))
}

/// The texts of all elements other than the level: code and title first, then those with a line of their own.
fn texts(
    alloc: Global,
    header: &Header,
    row: &StringRecord,
) -> Result<[Option<Text>; 25], AllocError>
    ensures { IfOk result (λ texts. texts
        ≡ map (λ e. nonblank (text_in_columns header.now (trimmed_fields row.now) e)) spec.text_elements) }
{
    let mut texts = array::from_fn(|_| None);
    texts[0] = optional(alloc, header, row, Element::ReferenceCode)?;
    texts[1] = optional(alloc, header, row, Element::Title)?;
    for (i, element) in LINE_ELEMENTS.iter().enumerate() {
        texts[i + 2] = optional(alloc, header, row, *element)?;
    }
    Ok(texts)
}

/// The values of the description in a record: its level, which may be empty, the text of each other element, or none if
/// it is empty, and the containers.
pub fn values(alloc: Global, header: &Header, row: &StringRecord) -> Result<Values, AllocError>
    ensures { IfOk result (λ v. v ≡ values_of header.now (trimmed_fields row.now)) }
{
    let names = header.value(Column::PhysicalObjectName, row);
    let locations = header.value(Column::PhysicalObjectLocation, row);
    let kinds = header.value(Column::PhysicalObjectType, row);
    Ok(Values {
        level: Text(join_entries(alloc, header, row, Element::Level)?),
        texts: texts(alloc, header, row)?,
        boxes: boxes(alloc, names, locations, kinds)?,
    })
}
