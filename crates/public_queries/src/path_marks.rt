//! What the marks of a path tell: whether the public is shown its last unit, whether that is closed, and whether units
//! of it have containers.

ghost use Rattle.std.specs.Prelude.{◌≡◌, IfOk, map};
ghost use Rattle.visibility.specs.Marks.{is_later};
ghost use Rattle.visibility.specs.declared.marks.Mark.{Mark};
ghost use Rattle.public_queries.specs.PageNeeds.{are_boxed};
ghost use Rattle.public_queries.specs.PathMarks.{are_clear as all_clear, ends_closed, is_clear, shows_marked};

use isad_core::{Day, Number};
use std::alloc::{AllocError, Global};
use visibility::{Mark, is_closed};

/// Whether the unit is closed on this day.
fn is_shut(mark: &Mark, today: Day) -> bool
    ensures { result ≡ is_later today mark.now.until }
{
    is_closed(mark.until, today.number())
}

/// Whether the unit is neither a draft nor closed.
fn is_clear(mark: &Mark, today: Day) -> bool
    ensures { result ≡ is_clear today mark.now }
{
    !mark.draft && !is_shut(mark, today)
}

/// Whether none of these units is a draft or closed.
fn are_clear(marks: &[Mark], today: Day) -> bool
    ensures { result ≡ all_clear today marks.now }
{
    marks.iter().all(|mark| is_clear(mark, today))
}

/// Whether the public is shown the last unit of a path, in full or as a stub: none of the units is a draft, and none
/// above the last is closed on this day. False for an empty path.
pub(crate) fn shows_last(way: &[Mark], today: Day) -> bool
    ensures { result ≡ shows_marked today way.now }
{
    let Some((last, above)) = way.split_last() else {
        return false;
    };
    are_clear(above, today) && !last.draft
}

/// Whether the last unit of a path is closed on this day. False for an empty path.
pub(crate) fn is_last_closed(way: &[Mark], today: Day) -> bool
    ensures { result ≡ ends_closed today way.now }
{
    let Some((last, _above)) = way.split_last() else {
        return false;
    };
    is_shut(last, today)
}

/// The numbers of the units with these marks.
pub(crate) fn numbers(alloc: Global, way: &[Mark]) -> Result<Vec<Number>, AllocError>
    ensures { IfOk result (λ ids. ids.items ≡ map (λ (mark : Mark). mark.id) way.now) }
{
    way.iter().map(|mark| mark.id).collect(alloc)
}

/// Whether some of these units have containers of their own.
pub(crate) fn are_boxed(way: &[Mark]) -> bool
    ensures { result ≡ are_boxed way.now }
{
    way.iter().any(|mark| mark.boxed)
}
