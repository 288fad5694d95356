//! A forest of four units as rows of both kinds, which are read and changed.

ghost use Rattle.std.specs.Prelude.{◌<◌, ◌^◌, vec_len};

use isad_core::Number;
use std::alloc::{AllocError, Global};
use std::test::Fail;
use tree_core::{
    Link, LinkFault, Span, SpanFault, check_links, check_spans, links, spans, spans_of_links,
};
use visibility::{Kept, Mark, clean_contents, clean_path, prune};

fn link(id: u32, parent: Option<u32>, ord: u32) -> Link {
    Link {
        id: Number::from(id),
        parent: parent.map(Number::from),
        ord,
    }
}

fn span(id: u32, lft: u32, rgt: u32) -> Span {
    Span {
        id: Number::from(id),
        lft,
        rgt,
    }
}

pub(crate) fn numbers(alloc: Global, units: &[u32]) -> Result<Vec<Number>, AllocError> {
    units.iter().map(|unit| Number::from(*unit)).collect(alloc)
}

/// Units 2 and 3 below unit 1, and unit 4.
fn worked_links() -> [Link; 4] {
    [
        link(1, None, 1),
        link(2, Some(1), 1),
        link(3, Some(1), 2),
        link(4, None, 2),
    ]
}

/// The same units.
fn worked_spans() -> [Span; 4] {
    [span(1, 1, 6), span(2, 2, 3), span(3, 4, 5), span(4, 7, 8)]
}

#[test]
fn links_are_read(rt: HostRuntime) -> Result<(), Fail> {
    let alloc = rt.alloc();
    let rows = worked_links();
    let numbered = spans_of_links(alloc, &rows)?;
    assert_eq!(rt; numbered.as_slice(), worked_spans().as_slice());
    let path = links::path(alloc, &rows, Number::from(3))?;
    assert_eq!(rt; path.as_slice(), numbers(alloc, &[1, 3])?.as_slice());
    let branch = links::branch(alloc, &rows, Number::from(1))?;
    assert_eq!(rt; branch.as_slice(), numbers(alloc, &[1, 2, 3])?.as_slice());
    Ok(())
}

#[test]
fn spans_are_read(rt: HostRuntime) -> Result<(), Fail> {
    let alloc = rt.alloc();
    let rows = worked_spans();
    let path = spans::path(alloc, &rows, Number::from(3))?;
    assert_eq!(rt; path.as_slice(), numbers(alloc, &[1, 3])?.as_slice());
    let branch = spans::branch(alloc, &rows, Number::from(1))?;
    assert_eq!(rt; branch.as_slice(), numbers(alloc, &[1, 2, 3])?.as_slice());
    Ok(())
}

#[test]
fn units_lie_below_others(rt: HostRuntime) {
    let (link_rows, span_rows) = (worked_links(), worked_spans());
    for (unit, other, below) in [(3, 1, true), (3, 3, true), (1, 3, false)] {
        let (unit, other) = (Number::from(unit), Number::from(other));
        assert_eq!(rt; links::is_below(&link_rows, unit, other), below);
        assert_eq!(rt; spans::is_below(&span_rows, unit, other), below);
    }
}

/// A change of the rows.
#[derive(Clone, Copy)]
enum Change {
    /// Moves a unit below a parent, or to the top.
    Move(u32, Option<u32>),
    /// Removes a unit, with all below it.
    Cut(u32),
    /// Adds a new unit below a parent, or at the top.
    Add(Option<u32>, u32),
}

impl Change {
    fn of_links(self, rows: &mut Vec<Link>) -> Result<(), AllocError>
        requires { vec_len rows.old < 2 ^ 30 }
    {
        match self {
            Change::Move(unit, parent) => {
                links::move_last(rows, Number::from(unit), parent.map(Number::from))
            }
            Change::Cut(unit) => links::cut(rows, Number::from(unit)),
            Change::Add(parent, id) => {
                links::add_last(rows, parent.map(Number::from), Number::from(id))
            }
        }
    }

    fn of_spans(self, rows: &mut Vec<Span>) -> Result<(), AllocError>
        requires { vec_len rows.old < 2 ^ 30 }
    {
        match self {
            Change::Move(unit, parent) => {
                spans::move_last(rows, Number::from(unit), parent.map(Number::from))
            }
            Change::Cut(unit) => spans::cut(rows, Number::from(unit)),
            Change::Add(parent, id) => {
                spans::add_last(rows, parent.map(Number::from), Number::from(id))
            }
        }
    }
}

/// One change after the other.
#[test]
fn links_change(rt: HostRuntime) -> Result<(), Fail> {
    let moved = [
        link(1, None, 1),
        link(2, Some(4), 1),
        link(3, Some(1), 1),
        link(4, None, 2),
    ];
    let added = [
        link(1, None, 1),
        link(2, Some(4), 1),
        link(3, Some(1), 1),
        link(4, None, 2),
        link(5, Some(2), 1),
    ];
    let left = [link(2, Some(4), 1), link(4, None, 1), link(5, Some(2), 1)];
    let steps = [
        (Change::Move(2, Some(4)), &moved[..]),
        (Change::Add(Some(2), 5), &added[..]),
        (Change::Cut(1), &left[..]),
    ];
    let mut rows = Vec::from_slice(rt.alloc(), &worked_links())?;
    for (change, wanted) in steps {
        assert!(rt; rows.len() < 9);
        change.of_links(&mut rows)?;
        assert_eq!(rt; rows.as_slice(), wanted);
    }
    Ok(())
}

/// One change after the other.
#[test]
fn spans_change(rt: HostRuntime) -> Result<(), Fail> {
    let added = [
        span(1, 1, 8),
        span(2, 2, 5),
        span(5, 3, 4),
        span(3, 6, 7),
        span(4, 9, 10),
    ];
    let steps = [
        (Change::Add(Some(2), 5), &added[..]),
        (Change::Cut(1), &[span(4, 1, 2)][..]),
        (Change::Cut(4), &[][..]),
        (Change::Add(None, 1), &[span(1, 1, 2)][..]),
    ];
    let mut rows = Vec::from_slice(rt.alloc(), &worked_spans())?;
    for (change, wanted) in steps {
        assert!(rt; rows.len() < 9);
        change.of_spans(&mut rows)?;
        assert_eq!(rt; rows.as_slice(), wanted);
    }
    Ok(())
}

/// Each change starts from the worked rows.
#[test]
fn spans_move(rt: HostRuntime) -> Result<(), Fail> {
    let cases = [
        (
            (2, Some(1)),
            [span(1, 1, 6), span(3, 2, 3), span(2, 4, 5), span(4, 7, 8)],
        ),
        (
            (1, None),
            [span(4, 1, 2), span(1, 3, 8), span(2, 4, 5), span(3, 6, 7)],
        ),
        (
            (1, Some(4)),
            [span(4, 1, 8), span(1, 2, 7), span(2, 3, 4), span(3, 5, 6)],
        ),
        (
            (4, Some(2)),
            [span(1, 1, 8), span(2, 2, 5), span(4, 3, 4), span(3, 6, 7)],
        ),
        (
            (2, Some(4)),
            [span(1, 1, 4), span(3, 2, 3), span(4, 5, 8), span(2, 6, 7)],
        ),
    ];
    for (change, wanted) in &cases {
        let (unit, parent) = *change;
        let mut rows = Vec::from_slice(rt.alloc(), &worked_spans())?;
        spans::move_last(&mut rows, Number::from(unit), parent.map(Number::from))?;
        assert_eq!(rt; rows.as_slice(), wanted.as_slice(), "move {unit}");
    }
    Ok(())
}

/// Each change either happens or, if memory is refused, leaves the rows unchanged.
#[test]
fn links_change_or_stay(rt: HostRuntime) -> Result<(), Fail> {
    let moved = [
        link(1, None, 1),
        link(2, Some(4), 1),
        link(3, Some(1), 1),
        link(4, None, 2),
    ];
    let added = [
        link(1, None, 1),
        link(2, Some(1), 1),
        link(3, Some(1), 2),
        link(4, None, 2),
        link(5, Some(2), 1),
    ];
    let changes = [
        (Change::Move(2, Some(4)), &moved[..]),
        (Change::Cut(1), &[link(4, None, 1)][..]),
        (Change::Add(Some(2), 5), &added[..]),
    ];
    let worked = worked_links();
    for (change, changed) in changes {
        let mut rows = Vec::from_slice(rt.alloc(), &worked)?;
        let is_done = change.of_links(&mut rows).is_ok();
        let wanted = if is_done { changed } else { &worked[..] };
        assert_eq!(rt; rows.as_slice(), wanted);
    }
    Ok(())
}

/// Each change either happens or, if memory is refused, leaves the rows unchanged.
#[test]
fn spans_change_or_stay(rt: HostRuntime) -> Result<(), Fail> {
    let moved = [span(1, 1, 4), span(3, 2, 3), span(4, 5, 8), span(2, 6, 7)];
    let added = [
        span(1, 1, 8),
        span(2, 2, 5),
        span(5, 3, 4),
        span(3, 6, 7),
        span(4, 9, 10),
    ];
    let changes = [
        (Change::Move(2, Some(4)), &moved[..]),
        (Change::Cut(1), &[span(4, 1, 2)][..]),
        (Change::Add(Some(2), 5), &added[..]),
    ];
    let worked = worked_spans();
    for (change, changed) in changes {
        let mut rows = Vec::from_slice(rt.alloc(), &worked)?;
        let is_done = change.of_spans(&mut rows).is_ok();
        let wanted = if is_done { changed } else { &worked[..] };
        assert_eq!(rt; rows.as_slice(), wanted);
    }
    Ok(())
}

/// The mark of an open published unit without containers.
fn mark(id: u32, lft: u32, rgt: u32) -> Mark {
    Mark {
        id: Number::from(id),
        lft,
        rgt,
        draft: false,
        until: None,
        boxed: false,
        permit: false,
    }
}

/// Unit 1 of the worked forest, in a container.
fn unit() -> Mark {
    Mark {
        boxed: true,
        ..mark(1, 1, 6)
    }
}

/// Unit 2, a draft in a container.
fn draft() -> Mark {
    Mark {
        boxed: true,
        draft: true,
        ..mark(2, 2, 3)
    }
}

/// Unit 3, closed until the day 19784.
fn closed() -> Mark {
    Mark {
        until: Some(19784),
        ..mark(3, 4, 5)
    }
}

/// Unit 3, for a reader with a permit.
fn permitted() -> Mark {
    Mark {
        permit: true,
        ..closed()
    }
}

fn kept(id: u32, depth: u32, stub: bool) -> Kept {
    Kept {
        id: Number::from(id),
        depth,
        stub,
    }
}

#[test]
fn marks_are_pruned(rt: HostRuntime) -> Result<(), Fail> {
    let wanted = [kept(1, 0, false), kept(3, 1, true), kept(4, 0, false)];
    let marks = [unit(), draft(), closed(), mark(4, 7, 8)];
    let told = prune(rt.alloc(), &marks, 19783)?;
    assert_eq!(rt; told.as_slice(), wanted.as_slice());
    Ok(())
}

#[test]
fn paths_are_judged(rt: HostRuntime) {
    let to_closed = [unit(), closed()];
    assert!(rt; clean_path(&[], 19783));
    assert!(rt; !clean_path(&to_closed, 19783));
    assert!(rt; clean_path(&to_closed, 19784));
    assert!(rt; clean_path(&[unit(), permitted()], 19783));
    assert!(rt; !clean_path(&[draft(), permitted()], 19783));
}

/// The draft has containers of its own; the closed unit is in those of unit 1.
#[test]
fn contents_are_judged(rt: HostRuntime) {
    let with_closed = [unit(), draft(), closed()];
    assert!(rt; clean_contents(&[], 19783, false));
    assert!(rt; !clean_contents(&with_closed, 19783, false));
    assert!(rt; clean_contents(&with_closed, 19783, true));
    assert!(rt; clean_contents(&with_closed, 19784, false));
    assert!(rt; clean_contents(&[unit(), draft(), permitted()], 19783, false));
}

#[test]
fn spans_are_checked(rt: HostRuntime) {
    let worked = worked_spans();
    let crossing = [span(1, 1, 4), span(2, 2, 5), span(3, 3, 6)];
    let cases = [
        (&worked[..], Ok(())),
        (&[][..], Ok(())),
        (&crossing[..], Err(SpanFault::Cross)),
        (&[span(1, 1, 2), span(2, 4, 5)][..], Err(SpanFault::Gap)),
        (&[span(1, 1, 2), span(1, 4, 3)][..], Err(SpanFault::Twice)),
        (&[span(1, 3, 4), span(2, 1, 2)][..], Err(SpanFault::Order)),
    ];
    for (rows, wanted) in cases {
        assert!(rt; rows.len() < 9);
        assert_eq!(rt; check_spans(rt.alloc(), rows), wanted);
    }
}

#[test]
fn links_are_checked(rt: HostRuntime) {
    let worked = worked_links();
    let cycle = [link(1, Some(2), 1), link(2, Some(1), 1)];
    let same_place = [link(1, None, 1), link(2, None, 1)];
    let same_id = [link(1, None, 1), link(1, None, 2)];
    let cases = [
        (&worked[..], Ok(())),
        (&[][..], Ok(())),
        (&cycle[..], Err(LinkFault::Cycle)),
        (&[link(1, Some(9), 1)][..], Err(LinkFault::NoParent)),
        (&same_place[..], Err(LinkFault::Twice)),
        (&same_id[..], Err(LinkFault::Twice)),
        (&[link(1, None, 2)][..], Err(LinkFault::Ord)),
    ];
    for (rows, wanted) in cases {
        assert_eq!(rt; check_links(rt.alloc(), rows), wanted);
    }
}
