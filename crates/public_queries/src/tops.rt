//! The tops, with their head lines.

ghost use Rattle.std.specs.Prelude.{◌≡◌, [], IfOk};
ghost use Rattle.catalogue_core.specs.Pages.{tops_text};
ghost use Rattle.office_core.specs.declared.query.Query.TheVariants as query;
ghost use Rattle.public_queries.specs.HeadLines.{all_bare, repository_of};
ghost use Rattle.public_queries.specs.InformedAnswers.{RespondsKnowing};
ghost use Rattle.public_queries.specs.KnownPaths.{RepresentsKnown};

use crate::head_lines::bare_units;
use crate::public_heads::public_heads_below;
use catalogue_store::{Head, OfficeRow, Places};
use isad_core::{List, list_text};
use known_forest::KnownForest;
use office_core::Answer;
use office_tables::{StoreFault, Tables};
use sqlite::Alter;
use std::alloc::{AllocError, Global};

/// A line for each of these tops.
fn print_tops(alloc: Global, known: &OfficeRow, heads: &[Head]) -> Result<List<u8>, AllocError>
    ensures { IfOk result (λ text. text
        ≡ tops_text (all_bare (repository_of known.now) [] known.now.day heads.now)) }
{
    let mut ids = Vec::new(alloc);
    let tops = bare_units(alloc, known, &mut ids, heads)?;
    Ok(List(list_text(alloc, tops.as_slice())?))
}

/// Answers with a line for each top that is not a draft. `known` must be the office's row, and `forest` have the marks
/// of its units.
pub fn fonds<P: Places, S: Alter>(
    alloc: Global,
    tables: &mut Tables<P, S>,
    known: &OfficeRow,
    forest: &KnownForest,
) -> Result<Answer, StoreFault>
    ensures { RespondsKnowing P.represents P.version S.Store (RepresentsKnown known.now forest.now) query.Fonds
        tables.old tables.new result }
{
    let heads = public_heads_below(alloc, tables, forest, None)?;
    let text = print_tops(alloc, known, heads.as_slice())?;
    Ok(Answer::Text(text))
}
