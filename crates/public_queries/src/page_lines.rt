//! The lines of a page, from what was read of the units of a path.

ghost use Rattle.std.specs.Prelude.{◌≡◌, filter_map, map, option_copied, IfOk};
ghost use Rattle.isad_core.specs.PrintedDescriptions.{page as printed};
ghost use Rattle.catalogue_core.specs.Pages.{nearest_value as nearest_of, page_line as line_of};
ghost use Rattle.public_queries.specs.PageLines.{box_lines, closed_page, housed_lines, nearest_lines};
ghost use Rattle.public_queries.specs.PageLines.{told_head as head_of_told, told_text};
ghost use Rattle.public_queries.specs.PathValues.{coded_of};

use crate::path_values::{OnPath, text_or_empty};
use catalogue_store::UnitValues;
use isad_core::{Body, Element, LINE_ELEMENTS, List, Page, Shown, Text, page_text};
use std::alloc::{AllocError, Global};

/// An element with its text, and the code of the unit above where it was found, if any.
type Line = (Element, Text, Option<Text>);

/// The number and the name of a container, and the code of the unit above where it was found, if any.
type Boxed = (u64, Text, Option<Text>);

/// The value of the nearest of these units that has one.
fn nearest_value(units: &[OnPath], element: Element) -> Result<Option<Line>, AllocError>
    ensures { IfOk result (λ line. line ≡ nearest_of element (map coded_of units.now)) }
{
    for unit in units {
        if let Some(text) = unit.unit.values.text(element) {
            return Ok(Some((element, text.clone()?, Some(unit.code.clone()?))));
        }
    }
    Ok(None)
}

/// The line of an element on the page of the first of these units.
fn page_line(units: &[OnPath], element: Element) -> Result<Option<Line>, AllocError>
    ensures { IfOk result (λ line. line ≡ line_of (map coded_of units.now) element) }
{
    let Some((unit, higher)) = units.split_first() else {
        return Ok(None);
    };
    if let Some(text) = unit.unit.values.text(element) {
        return Ok(Some((element, text.clone()?, None)));
    }
    if element.found_above() {
        return nearest_value(higher, element);
    }
    Ok(None)
}

/// The lines of these elements.
fn page_lines(
    alloc: Global,
    units: &[OnPath],
    elements: &[Element],
) -> Result<List<Line>, AllocError>
    ensures { IfOk result (λ lines. lines ≡ filter_map (line_of (map coded_of units.now)) elements.now) }
{
    let mut lines = List::new(alloc);
    for element in elements {
        if let Some(line) = page_line(units, *element)? {
            lines.push(line)?;
        }
    }
    Ok(lines)
}

/// A copy of a code, if there is one.
fn code_or_none(from: Option<&Text>) -> Result<Option<Text>, AllocError>
    ensures { IfOk result (λ code. code ≡ option_copied from.entry) }
{
    match from {
        None => Ok(None),
        Some(code) => Ok(Some(code.clone()?)),
    }
}

/// The containers of a unit with their numbers.
fn boxes_of(
    alloc: Global,
    unit: &UnitValues,
    from: Option<&Text>,
) -> Result<List<Boxed>, AllocError>
    ensures { IfOk result (λ boxes. boxes
        ≡ box_lines (option_copied from.entry) unit.now.containers unit.now.values.boxes) }
{
    let mut boxes = List::new(alloc);
    for (number, housed) in unit
        .containers
        .as_slice()
        .iter()
        .zip(unit.values.boxes.as_slice())
    {
        boxes.push((number.get(), housed.name.clone()?, code_or_none(from)?))?;
    }
    Ok(boxes)
}

/// The containers of the nearest of these units that has some.
fn nearest_boxes(alloc: Global, units: &[OnPath]) -> Result<List<Boxed>, AllocError>
    ensures { IfOk result (λ boxes. boxes ≡ nearest_lines units.now) }
{
    for unit in units {
        if unit.unit.values.boxes.len() > 0 {
            return boxes_of(alloc, &unit.unit, Some(&unit.code));
        }
    }
    Ok(List::new(alloc))
}

/// The containers of the first of these units, or else those of the nearest unit above it that has some.
fn nearest_containers(alloc: Global, units: &[OnPath]) -> Result<List<Boxed>, AllocError>
    ensures { IfOk result (λ boxes. boxes ≡ housed_lines units.now) }
{
    let Some((unit, higher)) = units.split_first() else {
        return Ok(List::new(alloc));
    };
    if unit.unit.values.boxes.len() > 0 {
        return boxes_of(alloc, &unit.unit, None);
    }
    nearest_boxes(alloc, higher)
}

/// The page of a unit that is closed.
pub(crate) fn print_closed(alloc: Global, head: Shown) -> Result<List<u8>, AllocError>
    ensures { IfOk result (λ text. text ≡ printed (closed_page head)) }
{
    let page = Page {
        head,
        lines: List::new(alloc),
        boxes: List::new(alloc),
        below: List::new(alloc),
    };
    Ok(List(page_text(alloc, &page)?))
}

/// The head of the page of a unit that is not closed.
fn told_head(alloc: Global, unit: &OnPath) -> Result<Shown, AllocError>
    ensures { IfOk result (λ head. head ≡ head_of_told unit.now) }
{
    let values = &unit.unit.values;
    Ok(Shown {
        depth: 0,
        code: unit.code.clone()?,
        level: values.level.clone()?,
        title: text_or_empty(alloc, values.text(Element::Title))?,
        body: Body::Full {
            lines: List::new(alloc),
            boxes: List::new(alloc),
        },
    })
}

/// The page of the first of these units, which is not closed. The others must be those above it, the nearest first;
/// `below` are the units right below it. Empty if there are no units.
pub(crate) fn print_told(
    alloc: Global,
    units: &[OnPath],
    below: List<(u64, Shown)>,
) -> Result<List<u8>, AllocError>
    ensures { IfOk result (λ text. text ≡ told_text units.now below) }
{
    let Some((unit, _higher)) = units.split_first() else {
        return Ok(List::new(alloc));
    };
    let page = Page {
        head: told_head(alloc, unit)?,
        lines: page_lines(alloc, units, LINE_ELEMENTS.as_slice())?,
        boxes: nearest_containers(alloc, units)?,
        below,
    };
    Ok(List(page_text(alloc, &page)?))
}
