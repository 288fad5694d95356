//! The slip of a run.
ghost use Rattle.std.specs.Prelude.{◌≡◌, ◌++◌, IfOk, OnOk, replicate};
ghost use Rattle.std.specs.String.{string_bytes};
ghost use Rattle.desk_core.specs.Slips as spec;
ghost use Rattle.isad_core.specs.Texts as texts;

use crate::run::Candidate;
use isad_core::{Day, Text, one_line};
use std::alloc::{AllocError, Global};
use std::cmp::Ordering;

/// The text of a run's slip: a line with the run and its day, then a line for each container, in shelf order: by
/// location, name and kind, compared as stored, then by number.
pub fn slip_text(
    alloc: Global,
    run: u64,
    day: Day,
    candidates: &[Candidate],
) -> Result<Vec<u8>, AllocError>
    ensures { IfOk result (λ slip. slip.items ≡ spec.slip run day candidates.now) }
{
    let mut lines: Vec<&Candidate> = candidates.iter().collect(alloc)?;
    lines.sort_by(|a, b| shelf_order(a, b))?;
    let mut slip = slip_head(alloc, run, day)?;
    for candidate in &lines {
        push_line(alloc, &mut slip, candidate)?;
    }
    Ok(slip)
}

/// The shelf order of two containers: by location, name and kind, compared as stored, then by number.
fn shelf_order(a: &Candidate, b: &Candidate) -> Ordering
    ensures { result ≡ spec.shelf_order a.now b.now }
{
    a.location
        .cmp(&b.location)
        .then_with(|| a.name.cmp(&b.name))
        .then_with(|| a.kind.cmp(&b.kind))
        .then(a.container.cmp(&b.container))
}

/// The first line.
fn slip_head(alloc: Global, run: u64, day: Day) -> Result<Vec<u8>, AllocError>
    ensures { IfOk result (λ head. head.items ≡ spec.slip_head run day) }
{
    let mut head = format!(in alloc; "Run {run}  ")?.into_bytes();
    head.extend_from_slice(&day.text())?;
    head.push(b'\n')?;
    Ok(head)
}

/// The line of a container.
fn push_line(alloc: Global, slip: &mut Vec<u8>, candidate: &Candidate) -> Result<(), AllocError>
    ensures { OnOk result (slip.new.items ≡ slip.old.items ++ spec.slip_line candidate.now) }
{
    push_at_left(alloc, slip, &candidate.location, 20)?;
    slip.push(b' ')?;
    push_at_left(alloc, slip, &candidate.name, 16)?;
    let numbers = numbers_of(alloc, candidate)?;
    slip.extend_from_slice(numbers.as_bytes())
}

/// The columns of numbers, up to the end of the line.
fn numbers_of(alloc: Global, candidate: &Candidate) -> Result<String, AllocError>
    ensures { IfOk result (λ numbers. string_bytes numbers ≡ spec.slip_numbers candidate.now) }
{
    let container = candidate.container;
    let order = candidate.order;
    let ticket = candidate.ticket;
    format!(in alloc; " {container:>6} {order:>8} {ticket:>7}\n")
}

/// A text on one line, padded with spaces to `places` characters. A longer text is not cut.
fn push_at_left(
    alloc: Global,
    slip: &mut Vec<u8>,
    text: &Text,
    places: usize,
) -> Result<(), AllocError>
    ensures { OnOk result
        (slip.new.items ≡ slip.old.items ++ spec.at_left places (texts.one_line text.now)) }
{
    let line = one_line(alloc, text.as_str())?;
    slip.extend_from_slice(&line)?;
    push_spaces(slip, places.saturating_sub(characters(&line)))
}

/// The number of characters of a text.
fn characters(text: &[u8]) -> usize
    ensures { result ≡ spec.characters text.now }
{
    text.iter()
        .filter(|byte| **byte < 0x80 || **byte >= 0xC0)
        .count()
}

#[tactic(auto, using(std::proofs::lemmas::List::replicate_more))]
fn push_spaces(slip: &mut Vec<u8>, count: usize) -> Result<(), AllocError>
    ensures { OnOk result (slip.new.items ≡ slip.old.items ++ replicate count 32) }
{
    for _ in 0..count {
        slip.push(b' ')?;
    }
    Ok(())
}
