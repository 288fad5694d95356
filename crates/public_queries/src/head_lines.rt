//! Units that are printed with their head line alone.

ghost use Rattle.std.specs.Prelude.{◌≡◌, ◌++◌, ◌∷◌, [], IfOk, OnOk};
ghost use Rattle.public_queries.specs.HeadLines.{all_bare, head_alone as bare_of, bare_body, repository_of};

use catalogue_store::{Head, OfficeRow};
use isad_core::{Body, Day, List, Shown, Text, join_code};
use std::alloc::{AllocError, Global};

/// The body of a unit that is printed with its head line alone.
fn body_of(alloc: Global, until: Option<Day>, today: Day) -> Body
    ensures { result ≡ bare_body today until }
{
    match until {
        Some(until) if today.number() < until.number() => Body::Closed(until),
        _ => Body::Full {
            lines: List::new(alloc),
            boxes: List::new(alloc),
        },
    }
}

/// A unit with its head line alone. `ids` are the identifiers from the top down to it.
pub(crate) fn head_alone(
    alloc: Global,
    known: &OfficeRow,
    ids: &[Text],
    head: &Head,
) -> Result<Shown, AllocError>
    ensures { IfOk result (λ shown. shown ≡ bare_of (repository_of known.now) ids.now known.now.day head.now) }
{
    Ok(Shown {
        depth: 0,
        code: join_code(alloc, known.country.as_str(), known.repo.as_str(), ids)?,
        level: head.level.clone()?,
        title: head.title.clone()?,
        body: body_of(alloc, head.until, known.day),
    })
}

/// A unit right below others, with its head line alone.
fn bare_in(
    alloc: Global,
    known: &OfficeRow,
    ids: &mut Vec<Text>,
    head: &Head,
) -> Result<Shown, AllocError>
    ensures shown { IfOk result (λ shown. shown ≡ bare_of (repository_of known.now)
        (ids.old.items ++ head.now.identifier ∷ []) known.now.day head.now) }
    ensures ids { OnOk result (ids.new.items ≡ ids.old.items) }
{
    ids.push(head.identifier.clone()?)?;
    let shown = head_alone(alloc, known, ids.as_slice(), head)?;
    ids.pop();
    Ok(shown)
}

/// These units, each with its number and its head line alone. `ids` are the identifiers from the top down to the unit
/// right above them, and are the same afterwards unless the call fails.
pub(crate) fn bare_units(
    alloc: Global,
    known: &OfficeRow,
    ids: &mut Vec<Text>,
    heads: &[Head],
) -> Result<List<(u64, Shown)>, AllocError>
    ensures shown { IfOk result (λ below. below
        ≡ all_bare (repository_of known.now) ids.old.items known.now.day heads.now) }
    ensures ids { OnOk result (ids.new.items ≡ ids.old.items) }
{
    let mut below = List::new(alloc);
    for head in heads {
        below.push((head.id.get(), bare_in(alloc, known, ids, head)?))?;
    }
    Ok(below)
}
