//! The page of a unit. The marks of its path tell what it may show before any row is read, and each row is read once.

ghost use Rattle.std.specs.Prelude.{◌≡◌, [], IfOk};
ghost use Rattle.isad_core.specs.PrintedDescriptions.{page as printed};
ghost use Rattle.office_core.specs.declared.query.Query.TheVariants as query;
ghost use Rattle.public_queries.specs.HeadLines.{all_bare, head_alone as bare_of, head_identifiers, repository_of};
ghost use Rattle.public_queries.specs.InformedAnswers.{RespondsKnowing};
ghost use Rattle.public_queries.specs.KnownPaths.{RepresentsKnown, RepresentsMarked, RepresentsStub, RepresentsWay};
ghost use Rattle.public_queries.specs.PageLines.{closed_page, told_text};
ghost use Rattle.public_queries.specs.PathValues.{coded_way, identifiers_of};

use crate::head_lines::{bare_units, head_alone};
use crate::page_lines::{print_closed, print_told};
use crate::page_needs::read_path;
use crate::path_heads::identifiers;
use crate::path_marks::{is_last_closed, numbers, shows_last};
use crate::path_values::with_codes;
use crate::public_heads::{public_heads, public_heads_below};
use catalogue_store::{Head, OfficeRow, Places, UnitValues};
use isad_core::{List, Number};
use known_forest::KnownForest;
use known_units::path_marks;
use office_core::{Answer, Refusal};
use office_tables::{StoreFault, Tables};
use sqlite::Alter;
use std::alloc::{AllocError, Global};
use visibility::Mark;

/// The page of the last unit of a path, which is not closed, from what was read of each unit of the path and the
/// heads of the units below the last. Empty for an empty path.
fn print_way(
    alloc: Global,
    known: &OfficeRow,
    way: Vec<UnitValues>,
    heads: &[Head],
) -> Result<List<u8>, AllocError>
    ensures { IfOk result (λ text. text ≡ told_text (coded_way (repository_of known.now) [] [] way.items)
        (all_bare (repository_of known.now) (identifiers_of way.items) known.now.day heads.now)) }
{
    let (mut ids, units) = with_codes(alloc, known, way)?;
    let below = bare_units(alloc, known, &mut ids, heads)?;
    print_told(alloc, units.as_slice(), below)
}

/// The page of the last unit of a path, which is closed, from the heads of the units of the path.
fn print_stub(
    alloc: Global,
    known: &OfficeRow,
    way: &[Head],
    last: &Head,
) -> Result<List<u8>, AllocError>
    ensures { IfOk result (λ text. text ≡ printed (closed_page
        (bare_of (repository_of known.now) (head_identifiers way.now) known.now.day last.now))) }
{
    let ids = identifiers(alloc, way)?;
    let head = head_alone(alloc, known, ids.as_slice(), last)?;
    print_closed(alloc, head)
}

/// Answers with the page of a unit that is not closed, whose path has these marks. The public must be shown it.
fn told_page<P: Places, S: Alter>(
    alloc: Global,
    tables: &mut Tables<P, S>,
    known: &OfficeRow,
    forest: &KnownForest,
    unit: Number,
    way: &[Mark],
) -> Result<Answer, StoreFault>
    ensures { RespondsKnowing P.represents P.version S.Store (RepresentsWay known.now forest.now unit way.now)
        (query.Page unit) tables.old tables.new result }
{
    let told = read_path(alloc, tables, way)?;
    let heads = public_heads_below(alloc, tables, forest, Some(unit))?;
    let text = print_way(alloc, known, told, heads.as_slice())?;
    Ok(Answer::Text(text))
}

/// Answers with the page of a unit that is closed, whose path has these units. The public must be shown it.
fn stub_page<P: Places, S: Alter>(
    alloc: Global,
    tables: &mut Tables<P, S>,
    known: &OfficeRow,
    unit: Number,
    way: &[Number],
) -> Result<Answer, StoreFault>
    ensures { RespondsKnowing P.represents P.version S.Store (RepresentsStub known.now unit way.now) (query.Page unit)
        tables.old tables.new result }
{
    let heads = public_heads(alloc, tables, way)?;
    let Some((last, _above)) = heads.split_last() else {
        return Ok(Answer::Unknown(Refusal::UnknownUnit));
    };
    let text = print_stub(alloc, known, heads.as_slice(), last)?;
    Ok(Answer::Text(text))
}

/// Answers with the page of a unit whose path has these marks, or with `UnknownUnit` if they say that the public is not
/// shown it. No row is read until that is known.
fn page_on_path<P: Places, S: Alter>(
    alloc: Global,
    tables: &mut Tables<P, S>,
    known: &OfficeRow,
    forest: &KnownForest,
    unit: Number,
    marks: &[Mark],
) -> Result<Answer, StoreFault>
    ensures { RespondsKnowing P.represents P.version S.Store (RepresentsMarked known.now forest.now unit marks.now)
        (query.Page unit) tables.old tables.new result }
{
    if !shows_last(marks, known.day) {
        return Ok(Answer::Unknown(Refusal::UnknownUnit));
    }
    if is_last_closed(marks, known.day) {
        let way = numbers(alloc, marks)?;
        return stub_page(alloc, tables, known, unit, way.as_slice());
    }
    told_page(alloc, tables, known, forest, unit, marks)
}

/// Answers with the page of a unit, or with `UnknownUnit` if the public is shown no such unit. `known` must be the
/// office's row, and `forest` have the marks of its units.
pub fn page<P: Places, S: Alter>(
    alloc: Global,
    tables: &mut Tables<P, S>,
    known: &OfficeRow,
    forest: &KnownForest,
    unit: Number,
) -> Result<Answer, StoreFault>
    ensures { RespondsKnowing P.represents P.version S.Store (RepresentsKnown known.now forest.now) (query.Page unit)
        tables.old tables.new result }
{
    let marks = path_marks(alloc, forest, unit)?;
    page_on_path(alloc, tables, known, forest, unit, marks.as_slice())
}
