//! The finding aid of a unit, printed as it is read.

ghost use Rattle.std.specs.Prelude.{◌≡◌, ◌++◌, ◌∷◌, [], List, length, map, OnOk, IfErr, IfOk};
ghost use Rattle.isad_core.specs.PrintedDescriptions.{aid as printed, unit_lines};
ghost use Rattle.tree_core.specs.Forest.{Forest, tree, walk};
ghost use Rattle.catalogue_core.specs.Bounds.{IsKept};
ghost use Rattle.catalogue_core.specs.CatalogueMerge.{Catalogue};
ghost use Rattle.catalogue_core.specs.Units.{«Unit» as Described, has_id};
ghost use Rattle.known_units.specs.KnownUnits.{KnowsUnits};
ghost use Rattle.office_tables.specs.Calls.{Answers};
ghost use Rattle.office_tables.specs.Premises.{◌within◌and◌gives◌, ◌within◌gives◌};
ghost use Rattle.catalogue_statements.specs.Representation.{Represents};
ghost use Rattle.catalogue_core.specs.Aids.{shown_below};
ghost use Rattle.catalogue_core.specs.PublicForest.{public_of};
ghost use Rattle.office_core.specs.declared.query.Query.TheVariants as query;
ghost use Rattle.public_queries.specs.HeadLines.{repository_of};
ghost use Rattle.public_queries.specs.InformedAnswers.{RespondsKnowing};
ghost use Rattle.public_queries.specs.FindingAids.{KeepsUnits, Walked, along, kept_from_walk, public_units, shown_at};
ghost use Rattle.public_queries.specs.KnownPaths.{IsTellable, RepresentsKnown, RepresentsMarked, RepresentsShown};

use crate::path_heads::identifiers_above;
use crate::path_marks::{numbers, shows_last};
use crate::public_heads::public_heads;
use crate::visible_unit::{Seen, seen_unit};
use catalogue_store::{OfficeRow, Places};
use isad_core::{Day, List, Number, Shown, Text, aid_text, join_code};
use known_forest::KnownForest;
use known_units::{branch_marks, path_marks};
use office_core::{Answer, Refusal};
use office_tables::{StoreFault, Tables};
use sqlite::Alter;
use std::alloc::{AllocError, Global};
use visibility::{Kept, Mark, prune};

/// No office has more units than this: their marks could not be numbered.
const MOST_MARKS: usize = 1 << 30;

/// The units of a branch that the public sees, if nothing above the branch is withheld.
fn kept_of(
    alloc: Global,
    forest: &KnownForest,
    unit: Number,
    today: Day,
) -> Result<Vec<Kept>, StoreFault>
    ensures kept { IfOk result (λ kept. (f : Forest Described) → KnowsUnits f forest.now
        → kept.items ≡ map kept_from_walk (walk 0 (public_units today (tree (has_id unit) f)))) }
    ensures faults { (c : Catalogue) → IsKept c → KnowsUnits c.forest forest.now
        → IfErr result (λ e. e ≡ StoreFault.Memory) }
{
    let marks = branch_marks(forest, unit);
    if marks.len() > MOST_MARKS {
        return Err(StoreFault::Schema);
    }
    Ok(prune(alloc, marks, today.number())?)
}

/// The lines of a unit below others with these identifiers. Its own identifier is added to them.
fn unit_text(
    alloc: Global,
    known: &OfficeRow,
    ids: &mut Vec<Text>,
    depth: u32,
    seen: Seen,
) -> Result<Vec<u8>, AllocError>
    ensures ids { OnOk result (ids.new.items ≡ ids.old.items ++ seen.identifier ∷ []) }
    ensures text { IfOk result (λ text. text.items
        ≡ unit_lines (shown_at (repository_of known.now) (ids.old.items ++ seen.identifier ∷ []) depth seen)) }
{
    ids.push(seen.identifier)?;
    let code = join_code(
        alloc,
        known.country.as_str(),
        known.repo.as_str(),
        ids.as_slice(),
    )?;
    let shown = Shown {
        depth,
        code,
        level: seen.level,
        title: seen.title,
        body: seen.body,
    };
    aid_text(alloc, &[shown])
}

/// The lines of these units, which must be in walk order, below others with these identifiers.
fn units_text<P: Places, S: Alter>(
    alloc: Global,
    tables: &mut Tables<P, S>,
    known: &OfficeRow,
    above: Vec<Text>,
    kept: &[Kept],
) -> Result<List<u8>, StoreFault>
    ensures answers { Answers S.Store (Represents P.represents P.version) tables.old tables.new result
        within IsKept and (λ c. IsTellable c × (rows : List Walked) × KeepsUnits known.now.day c kept.now rows)
        gives λ _ c text. IsTellable c → (rows : List Walked) → KeepsUnits known.now.day c kept.now rows → text
        ≡ printed (along (repository_of known.now) c.containers (length above.items) above.items rows) }
{
    let base = above.len();
    let mut ids = above;
    let mut out = Vec::new(alloc);
    for unit in kept {
        ids.truncate(base + unit.depth as usize);
        let seen = seen_unit(alloc, tables, *unit, known.day)?;
        let text = unit_text(alloc, known, &mut ids, unit.depth, seen)?;
        out.extend_from_slice(text.as_slice())?;
    }
    Ok(List(out))
}

/// The finding aid of a unit that the public is shown, below units with these identifiers.
fn branch_text<P: Places, S: Alter>(
    alloc: Global,
    tables: &mut Tables<P, S>,
    known: &OfficeRow,
    forest: &KnownForest,
    unit: Number,
    above: Vec<Text>,
) -> Result<List<u8>, StoreFault>
    ensures answers { Answers S.Store (Represents P.represents P.version) tables.old tables.new result
        within IsKept and (λ c. IsTellable c × KnowsUnits c.forest forest.now)
        gives λ _ c text. IsTellable c → KnowsUnits c.forest forest.now
        → text ≡ printed (shown_below (repository_of known.now) c.containers above.items 0
        (public_of known.now.day (tree (has_id unit) c.forest))) }
{
    let kept = kept_of(alloc, forest, unit, known.day)?;
    units_text(alloc, tables, known, above, &kept)
}

/// Answers with the finding aid of a unit, whose path has these units. The public must be shown it.
fn shown_aid<P: Places, S: Alter>(
    alloc: Global,
    tables: &mut Tables<P, S>,
    known: &OfficeRow,
    forest: &KnownForest,
    unit: Number,
    way: &[Number],
) -> Result<Answer, StoreFault>
    ensures { RespondsKnowing P.represents P.version S.Store (RepresentsShown known.now forest.now unit way.now)
        (query.Aid unit) tables.old tables.new result }
{
    let heads = public_heads(alloc, tables, way)?;
    let above = identifiers_above(alloc, &heads)?;
    let text = branch_text(alloc, tables, known, forest, unit, above)?;
    Ok(Answer::Text(text))
}

/// Answers with the finding aid of a unit whose path has these marks, or with `UnknownUnit` if they say that the public
/// is not shown it. No row is read until that is known.
fn aid_on_path<P: Places, S: Alter>(
    alloc: Global,
    tables: &mut Tables<P, S>,
    known: &OfficeRow,
    forest: &KnownForest,
    unit: Number,
    marks: &[Mark],
) -> Result<Answer, StoreFault>
    ensures { RespondsKnowing P.represents P.version S.Store (RepresentsMarked known.now forest.now unit marks.now)
        (query.Aid unit) tables.old tables.new result }
{
    if !shows_last(marks, known.day) {
        return Ok(Answer::Unknown(Refusal::UnknownUnit));
    }
    let way = numbers(alloc, marks)?;
    shown_aid(alloc, tables, known, forest, unit, way.as_slice())
}

/// Answers with the finding aid of a unit, or with `UnknownUnit` if the public is shown no such unit. `known` must be
/// the office's row, and `forest` have the marks of its units.
pub fn aid<P: Places, S: Alter>(
    alloc: Global,
    tables: &mut Tables<P, S>,
    known: &OfficeRow,
    forest: &KnownForest,
    unit: Number,
) -> Result<Answer, StoreFault>
    ensures { RespondsKnowing P.represents P.version S.Store (RepresentsKnown known.now forest.now) (query.Aid unit)
        tables.old tables.new result }
{
    let marks = path_marks(alloc, forest, unit)?;
    aid_on_path(alloc, tables, known, forest, unit, marks.as_slice())
}
