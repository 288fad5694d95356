//! What the public sees of one unit: its own description, or only a stub if it is closed.

ghost use Rattle.std.specs.Prelude.{◌≡◌, ℤ, find, IfOk, Some};
ghost use Rattle.isad_core.specs.Values.{identifier};
ghost use Rattle.tree_core.specs.Forest.{nodes};
ghost use Rattle.catalogue_core.specs.Bounds.{IsKept};
ghost use Rattle.catalogue_core.specs.PublicForest.{«Told» as IsTold, Stub as IsClosed, public_unit};
ghost use Rattle.catalogue_core.specs.Units.{«Unit» as Described, has_id};
ghost use Rattle.office_tables.specs.Calls.{Answers};
ghost use Rattle.office_tables.specs.Premises.{◌within◌and◌gives◌};
ghost use Rattle.catalogue_statements.specs.Representation.{Represents};
ghost use Rattle.public_queries.specs.FindingAids.{IsOf, Walked, kept_from_walk, seen_of, seen_values, with_numbers};
ghost use Rattle.public_queries.specs.KnownPaths.{IsTellable};

use crate::path_values::text_or_empty;
use catalogue_store::{Places, UnitValues, find_head, values};
use isad_core::{Body, BoxKey, Day, Element, List, Number, Text};
use office_tables::{StoreFault, Tables};
use sqlite::Alter;
use std::alloc::{AllocError, Global};
use visibility::Kept;

/// What the public sees of a unit, except its place.
#[derive(Drop)]
pub struct Seen {
    /// Its identifier, or the empty text.
    pub identifier: Text,
    pub level: Text,
    pub title: Text,
    pub body: Body,
}

/// The names of these containers, each with its number.
fn with_numbers(
    alloc: Global,
    numbers: &[Number],
    boxes: &[BoxKey],
) -> Result<List<(u64, Text)>, AllocError>
    ensures { IfOk result (λ numbered. numbered ≡ with_numbers numbers.now boxes.now) }
{
    let mut numbered = List::new(alloc);
    for (number, housed) in numbers.iter().zip(boxes) {
        numbered.push((number.get(), housed.name.clone()?))?;
    }
    Ok(numbered)
}

/// What is seen of a unit with these values.
fn seen_values(alloc: Global, unit: &UnitValues) -> Result<Seen, AllocError>
    ensures { IfOk result (λ seen. seen ≡ seen_values unit.now) }
{
    let values = &unit.values;
    Ok(Seen {
        identifier: text_or_empty(alloc, values.text(Element::ReferenceCode))?,
        level: values.level.clone()?,
        title: text_or_empty(alloc, values.text(Element::Title))?,
        body: Body::Full {
            lines: values.lines(alloc)?,
            boxes: with_numbers(alloc, unit.containers.as_slice(), values.boxes.as_slice())?,
        },
    })
}

/// What is seen of a unit that is not closed.
fn seen_open<P: Places, S: Alter>(
    alloc: Global,
    tables: &mut Tables<P, S>,
    unit: Number,
) -> Result<Seen, StoreFault>
    ensures answers { Answers S.Store (Represents P.represents P.version) tables.old tables.new result
        within IsKept and (λ c. IsTellable c × (u : Described) × (find (has_id unit) (nodes c.forest) ≡ Some u))
        gives λ _ c seen. IsTellable c → (u : Described) → find (has_id unit) (nodes c.forest) ≡ Some u
        → seen ≡ seen_of c.containers (IsTold u.id u.values) }
{
    let Some(found) = values(alloc, tables, unit)? else {
        return Err(StoreFault::Schema);
    };
    Ok(seen_values(alloc, &found)?)
}

/// What is seen of a unit that is closed.
fn seen_closed<P: Places, S: Alter>(
    alloc: Global,
    tables: &mut Tables<P, S>,
    unit: Number,
) -> Result<Seen, StoreFault>
    ensures answers { Answers S.Store (Represents P.represents P.version) tables.old tables.new result
        within IsKept
        and (λ c. (u : Described) × (until : ℤ) × (find (has_id unit) (nodes c.forest) ≡ Some u)
        × (u.until ≡ Some until))
        gives λ _ c seen.
        (u : Described) (until : ℤ) → find (has_id unit) (nodes c.forest) ≡ Some u → u.until ≡ Some until
        → seen ≡ seen_of c.containers (IsClosed u.id (identifier u.values) u.values.level until) }
{
    let Some(head) = find_head(alloc, tables, unit)? else {
        return Err(StoreFault::Schema);
    };
    let Some(until) = head.until else {
        return Err(StoreFault::Schema);
    };
    Ok(Seen {
        identifier: head.identifier,
        level: head.level,
        title: Text::new(alloc, "")?,
        body: Body::Closed(until),
    })
}

/// What the public sees of a unit of a finding aid: its own description or, if `unit.stub` is true, its identifier, its
/// level and the day until which it is closed. There must be this unit, and it must be a stub exactly if it is closed
/// today.
pub(crate) fn seen_unit<P: Places, S: Alter>(
    alloc: Global,
    tables: &mut Tables<P, S>,
    unit: Kept,
    today: Day,
) -> Result<Seen, StoreFault>
    ensures answers { Answers S.Store (Represents P.represents P.version) tables.old tables.new result
        within IsKept and (λ c. IsTellable c × (row : Walked) × IsOf today c row × (unit ≡ kept_from_walk row))
        gives λ _ c seen. IsTellable c → (row : Walked) → IsOf today c row → unit ≡ kept_from_walk row
        → seen ≡ seen_of c.containers (public_unit row.0) }
{
    if unit.stub {
        seen_closed(alloc, tables, unit.id)
    } else {
        seen_open(alloc, tables, unit.id)
    }
}
