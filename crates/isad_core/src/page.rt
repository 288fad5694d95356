//! Pages of one unit, and lists of units.
ghost use Rattle.std.specs.Prelude.{◌≡◌, ◌++◌, ◌∷◌, IfOk, OnOk, codes, decimal};
ghost use Rattle.std.specs.List.{flat_map};
ghost use Rattle.isad_core.specs.PrintedDescriptions.{container_text, head_line, indent, line, origin, page};
ghost use Rattle.isad_core.specs.PrintedDescriptions.{found_container, found_element, numbered_line, unit_below};

use crate::display::{Page, Shown};
use crate::element::Element;
use crate::print::{
    end_line, push, push_container, push_element, push_head_line, push_indent, push_number,
    push_origin,
};
use crate::text::Text;
use std::alloc::{AllocError, Global};

/// The page of a unit: its head line, its elements and those found above, the containers that it lies in, and the
/// number and the head line of each unit right below. Each has a line, in the order of the lists.
pub fn page_text(alloc: Global, unit: &Page) -> Result<Vec<u8>, AllocError>
    ensures { IfOk result (λ text. text.items ≡ page unit.now) }
{
    let mut out = Vec::new(alloc);
    push_head_line(&mut out, &unit.head)?;
    end_line(&mut out)?;
    push_elements(&mut out, unit.lines.as_slice())?;
    push_containers(&mut out, unit.boxes.as_slice())?;
    push_units(&mut out, unit.below.as_slice())?;
    Ok(out)
}

/// A line for each element.
fn push_elements(
    out: &mut Vec<u8>,
    lines: &[(Element, Text, Option<Text>)],
) -> Result<(), AllocError>
    ensures { OnOk result (out.new.items ≡ out.old.items ++ flat_map found_element lines.now) }
{
    for (element, value, from) in lines {
        push_indent(out, 1)?;
        push_element(out, *element, value)?;
        push_origin(out, from)?;
        end_line(out)?;
    }
    Ok(())
}

/// A line for each container.
fn push_containers(out: &mut Vec<u8>, boxes: &[(u64, Text, Option<Text>)]) -> Result<(), AllocError>
    ensures { OnOk result (out.new.items ≡ out.old.items ++ flat_map found_container boxes.now) }
{
    for (number, name, from) in boxes {
        push_container_line(out, *number, name, from)?;
    }
    Ok(())
}

/// The line of a container.
fn push_container_line(
    out: &mut Vec<u8>,
    number: u64,
    name: &Text,
    from: &Option<Text>,
) -> Result<(), AllocError>
    ensures { OnOk result (out.new.items
        ≡ out.old.items ++ line (indent 1 ++ container_text number name.now ++ origin from.now)) }
{
    push_indent(out, 1)?;
    push_container(out, number, name)?;
    push_origin(out, from)?;
    end_line(out)
}

/// A line for each unit right below.
fn push_units(out: &mut Vec<u8>, below: &[(u64, Shown)]) -> Result<(), AllocError>
    ensures { OnOk result (out.new.items ≡ out.old.items ++ flat_map unit_below below.now) }
{
    for (number, unit) in below {
        push_unit(out, *number, unit)?;
    }
    Ok(())
}

/// The line of a unit right below.
fn push_unit(out: &mut Vec<u8>, number: u64, unit: &Shown) -> Result<(), AllocError>
    ensures { OnOk result (out.new.items ≡ out.old.items
        ++ line (indent 1 ++ codes "Unit " ++ decimal number ++ codes ": " ++ head_line unit.now)) }
{
    push_indent(out, 1)?;
    push(out, "Unit ")?;
    push_number(out, number)?;
    push(out, ": ")?;
    push_head_line(out, unit)?;
    end_line(out)
}

/// A list of units: a line for each, with its number and its head line, in their order.
pub fn list_text(alloc: Global, units: &[(u64, Shown)]) -> Result<Vec<u8>, AllocError>
    ensures { IfOk result (λ text. text.items ≡ flat_map numbered_line units.now) }
{
    let mut out = Vec::new(alloc);
    for (number, unit) in units {
        push_numbered(&mut out, *number, unit)?;
    }
    Ok(out)
}

/// The line of a unit in a list.
fn push_numbered(out: &mut Vec<u8>, number: u64, unit: &Shown) -> Result<(), AllocError>
    ensures { OnOk result (out.new.items ≡ out.old.items ++ line (decimal number ++ 32 ∷ head_line unit.now)) }
{
    push_number(out, number)?;
    push(out, " ")?;
    push_head_line(out, unit)?;
    end_line(out)
}
