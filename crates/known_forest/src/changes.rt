//! Changes of marks that leave their ids and numbers.

ghost use Rattle.std.specs.Prelude.{◌≡◌, ℕ, ◌<◌, ◌≤◌, length, slice_index_or};
ghost use Rattle.visibility.specs.declared.marks.Mark.{Mark};
ghost use Rattle.known_forest.specs.Changes.{changed};

use visibility::Mark;

/// What changes: whether it is a draft, the day until which it is closed, or whether it has containers of its own.
#[derive(Clone, Copy, Debug, PartialEq, Eq)]
pub(crate) enum Change {
    Draft(bool),
    Until(Option<i32>),
    Boxed(bool),
}

/// The mark with the change.
fn changed(change: Change, mark: Mark) -> Mark
    ensures { result ≡ changed change mark }
{
    match change {
        Change::Draft(draft) => Mark { draft, ..mark },
        Change::Until(until) => Mark { until, ..mark },
        Change::Boxed(boxed) => Mark { boxed, ..mark },
    }
}

/// Changes the marks from one index up to another.
pub(crate) fn change_between(marks: &mut [Mark], start: usize, end: usize, change: Change)
    requires { (start ≤ end) × (end ≤ length marks.old) }
    ensures inside { (k : ℕ) (d : Mark) → start ≤ k → k < end
        → slice_index_or marks.new k d ≡ changed change (slice_index_or marks.old k d) }
    ensures before { (k : ℕ) (d : Mark) → k < start → slice_index_or marks.new k d ≡ slice_index_or marks.old k d }
    ensures behind { (k : ℕ) (d : Mark) → end ≤ k → slice_index_or marks.new k d ≡ slice_index_or marks.old k d }
{
    for index in start..end {
        marks[index] = changed(change, marks[index]);
    }
}
