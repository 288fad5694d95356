//! Prints the parts of a unit, appended to the bytes so far. Each call fails only for want of memory, and then the
//! contract does not say what `out` has: it may have a part.
ghost use Rattle.std.specs.Prelude.{◌≡◌, ◌≤◌, ◌++◌, ◌∷◌, [], IfOk, OnOk, codes, decimal, length};
ghost use Rattle.isad_core.specs.Days.{day_text};
ghost use Rattle.isad_core.specs.PrintedDescriptions.{container_text, element_text, head_line, heading};
ghost use Rattle.isad_core.specs.PrintedDescriptions.{indent, or_dash, origin};
ghost use Rattle.isad_core.specs.Texts.{byte_or_space};
ghost use Rattle.isad_core.specs.Texts as spec;

use crate::day::Day;
use crate::display::{Body, Shown};
use crate::element::Element;
use crate::text::{Text, is_blank};
use itoa::Buffer;
use std::alloc::{AllocError, Global};

/// Appends the bytes of a text.
pub fn push(out: &mut Vec<u8>, text: &str) -> Result<(), AllocError>
    ensures { OnOk result (out.new.items ≡ out.old.items ++ text.now) }
{
    out.extend_from_slice(text.as_bytes())
}

/// Appends a number in decimal.
pub fn push_number(out: &mut Vec<u8>, number: u64) -> Result<(), AllocError>
    ensures { OnOk result (out.new.items ≡ out.old.items ++ decimal number) }
{
    let mut buffer = Buffer::new();
    push(out, buffer.format(number))
}

/// A byte as it is printed on one line: a space for CR or LF.
fn on_one_line(byte: u8) -> u8
    ensures { result ≡ byte_or_space byte }
{
    if byte == b'\r' || byte == b'\n' {
        b' '
    } else {
        byte
    }
}

/// The rest of a text after its first byte, or after the CRLF that it starts with.
fn after(first: u8, others: &[u8]) -> &[u8]
    ensures rest { spec.one_line (first ∷ others.now) ≡ byte_or_space first ∷ spec.one_line result.now }
    ensures shorter { length result.now ≤ length others.now }
{
    match others {
        [b'\n', rest @ ..] if first == b'\r' => rest,
        _ => others,
    }
}

/// Appends a text on one line: each CRLF, and each other CR or LF, becomes one space.
pub fn push_one_line(out: &mut Vec<u8>, text: &str) -> Result<(), AllocError>
    ensures { OnOk result (out.new.items ≡ out.old.items ++ spec.one_line text.now) }
{
    let mut rest = text.as_bytes();
    while let [first, others @ ..] = rest {
        out.push(on_one_line(*first))?;
        rest = after(*first, others);
    }
    Ok(())
}

/// A text as it is printed on one line: each CRLF, and each other CR or LF, becomes one space.
pub fn one_line(alloc: Global, text: &str) -> Result<Vec<u8>, AllocError>
    ensures { IfOk result (λ line. line.items ≡ spec.one_line text.now) }
{
    let mut out = Vec::new(alloc);
    push_one_line(&mut out, text)?;
    Ok(out)
}

/// Appends a text on one line, or a hyphen if it is blank.
pub fn push_or_dash(out: &mut Vec<u8>, text: &str) -> Result<(), AllocError>
    ensures { OnOk result (out.new.items ≡ out.old.items ++ or_dash text.now) }
{
    if is_blank(text) {
        push(out, "-")
    } else {
        push_one_line(out, text)
    }
}

/// Appends two spaces for each of `depth` steps.
#[tactic(auto, using(crate::proofs::PrintLemmas::indent_more))]
pub fn push_indent(out: &mut Vec<u8>, depth: u64) -> Result<(), AllocError>
    ensures { OnOk result (out.new.items ≡ out.old.items ++ indent depth) }
{
    for _ in 0..depth {
        push(out, "  ")?;
    }
    Ok(())
}

/// Appends a line feed.
pub fn end_line(out: &mut Vec<u8>) -> Result<(), AllocError>
    ensures { OnOk result (out.new.items ≡ out.old.items ++ 10 ∷ []) }
{
    push(out, "\n")
}

/// Appends until when a unit is closed.
fn push_closed(out: &mut Vec<u8>, day: Day) -> Result<(), AllocError>
    ensures { OnOk result (out.new.items ≡ out.old.items ++ codes "closed until " ++ day_text day) }
{
    push(out, "closed until ")?;
    push_day(out, day)
}

/// Appends the date of a day.
fn push_day(out: &mut Vec<u8>, day: Day) -> Result<(), AllocError>
    ensures { OnOk result (out.new.items ≡ out.old.items ++ day_text day) }
{
    out.extend_from_slice(&day.text())
}

/// Appends the title of a unit, or until when it is closed.
fn push_heading(out: &mut Vec<u8>, title: &str, body: &Body) -> Result<(), AllocError>
    ensures { OnOk result (out.new.items ≡ out.old.items ++ heading title.now body.now) }
{
    match body {
        Body::Full { .. } => push_or_dash(out, title),
        Body::Closed(day) => push_closed(out, *day),
    }
}

/// Appends the head line of a unit, without a line feed: its code, its level, and its title or, if it is closed, until
/// when.
pub fn push_head_line(out: &mut Vec<u8>, unit: &Shown) -> Result<(), AllocError>
    ensures { OnOk result (out.new.items ≡ out.old.items ++ head_line unit.now) }
{
    push_one_line(out, unit.code.as_str())?;
    push(out, " [")?;
    push_or_dash(out, unit.level.as_str())?;
    push(out, "] ")?;
    push_heading(out, unit.title.as_str(), &unit.body)
}

/// Appends the standard's number and name of an element, and its value on one line, without a line feed.
pub fn push_element(out: &mut Vec<u8>, element: Element, value: &Text) -> Result<(), AllocError>
    ensures { OnOk result (out.new.items ≡ out.old.items ++ element_text element value.now) }
{
    push(out, element.number())?;
    push(out, " ")?;
    push(out, element.name())?;
    push(out, ": ")?;
    push_one_line(out, value.as_str())
}

/// Appends `Container`, its number, and its name on one line, without a line feed.
pub fn push_container(out: &mut Vec<u8>, number: u64, name: &Text) -> Result<(), AllocError>
    ensures { OnOk result (out.new.items ≡ out.old.items ++ container_text number name.now) }
{
    push(out, "Container ")?;
    push_number(out, number)?;
    push(out, ": ")?;
    push_one_line(out, name.as_str())
}

/// Appends `(from CODE)` after a space, with the code of the unit above that a value is from. For `None`, a value of
/// the unit's own, it appends nothing.
pub fn push_origin(out: &mut Vec<u8>, code: &Option<Text>) -> Result<(), AllocError>
    ensures { OnOk result (out.new.items ≡ out.old.items ++ origin code.now) }
{
    match code {
        None => Ok(()),
        Some(code) => {
            push(out, " (from ")?;
            push_one_line(out, code.as_str())?;
            push(out, ")")
        }
    }
}
