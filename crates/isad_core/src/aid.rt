//! Finding aids.
ghost use Rattle.std.specs.Prelude.{◌≡◌, ◌++◌, ◌+◌, IfOk, OnOk};
ghost use Rattle.std.specs.List.{flat_map};
ghost use Rattle.isad_core.specs.PrintedDescriptions.{aid, body_lines, full_lines, unit_lines};
ghost use Rattle.isad_core.specs.PrintedDescriptions.{container_text, element_text, indent, line};

use crate::display::{Body, Shown};
use crate::element::Element;
use crate::print::{end_line, push_container, push_element, push_head_line, push_indent};
use crate::text::Text;
use std::alloc::{AllocError, Global};

/// The finding aid of these units, in their order: the lines of each, indented by its depth.
pub fn aid_text(alloc: Global, units: &[Shown]) -> Result<Vec<u8>, AllocError>
    ensures { IfOk result (λ text. text.items ≡ aid units.now) }
{
    let mut out = Vec::new(alloc);
    for unit in units {
        push_unit(&mut out, unit)?;
    }
    Ok(out)
}

/// The lines of one unit.
fn push_unit(out: &mut Vec<u8>, unit: &Shown) -> Result<(), AllocError>
    ensures { OnOk result (out.new.items ≡ out.old.items ++ unit_lines unit.now) }
{
    let depth = u64::from(unit.depth);
    push_indent(out, depth)?;
    push_head_line(out, unit)?;
    end_line(out)?;
    push_body(out, depth + 1, &unit.body)
}

/// The lines below a unit's head line.
fn push_body(out: &mut Vec<u8>, depth: u64, body: &Body) -> Result<(), AllocError>
    ensures { OnOk result (out.new.items ≡ out.old.items ++ body_lines depth body.now) }
{
    match body {
        Body::Full { lines, boxes } => push_full(out, depth, lines.as_slice(), boxes.as_slice()),
        Body::Closed(_) => Ok(()),
    }
}

/// The elements, then the containers.
fn push_full(
    out: &mut Vec<u8>,
    depth: u64,
    lines: &[(Element, Text)],
    boxes: &[(u64, Text)],
) -> Result<(), AllocError>
    ensures { OnOk result (out.new.items ≡ out.old.items ++ full_lines depth lines.now boxes.now) }
{
    push_elements(out, depth, lines)?;
    push_containers(out, depth, boxes)
}

/// A line for each element.
fn push_elements(out: &mut Vec<u8>, depth: u64, lines: &[(Element, Text)]) -> Result<(), AllocError>
    ensures { OnOk result (out.new.items
        ≡ out.old.items ++ flat_map (λ l. line (indent depth ++ element_text l.0 l.1)) lines.now) }
{
    for (element, value) in lines {
        push_indent(out, depth)?;
        push_element(out, *element, value)?;
        end_line(out)?;
    }
    Ok(())
}

/// A line for each container.
fn push_containers(out: &mut Vec<u8>, depth: u64, boxes: &[(u64, Text)]) -> Result<(), AllocError>
    ensures { OnOk result (out.new.items
        ≡ out.old.items ++ flat_map (λ b. line (indent depth ++ container_text b.0 b.1)) boxes.now) }
{
    for (number, name) in boxes {
        push_indent(out, depth)?;
        push_container(out, *number, name)?;
        end_line(out)?;
    }
    Ok(())
}
