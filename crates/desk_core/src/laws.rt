//! Laws of the definitions that the contracts of this crate cite.
ghost use Rattle.std.specs.Prelude.{ℕ, List, nat_lt};
ghost use Rattle.desk_core.specs.Orders.{IsInOrder, in_order};
ghost use Rattle.desk_core.specs.Runs.{IsRun, run_of};
ghost use Rattle.desk_core.specs.Slips.{CountsCharacters, CountsPrintedCharacters, is_shelved_before};
ghost use Rattle.desk_core.specs.WorkedExamples.{WorkedRun, WorkedSlip};
ghost use Rattle.desk_core.specs.declared.run.Candidate.{Candidate};

/// What `run_of` takes is a run: as many candidates as it may, or all, by ascending order number. No candidate that is
/// left has a lower order number than one that is taken.
pub fn a_run_is_least()
    ensures { (candidates : List Candidate) (most : ℕ)
        → IsRun candidates (run_of candidates most) most }
{}

/// The lines of a slip are those of its containers, each as often as it was taken, in shelf order.
pub fn slip_lines_are_in_order()
    ensures { (candidates : List Candidate)
        → IsInOrder is_shelved_before candidates (in_order is_shelved_before candidates) }
{}

/// The containers that go back to the shelf are in ascending order, each as often as it was handed in.
pub fn reshelved_are_in_order()
    ensures { (containers : List ℕ) → IsInOrder nat_lt containers (in_order nat_lt containers) }
{}

/// The column widths of a slip count characters: the Unicode scalar values of a text in UTF-8 and, when it is put on
/// one line, those that are printed, where a CRLF counts once.
pub fn places_count_characters()
    ensures kept { CountsCharacters }
    ensures printed { CountsPrintedCharacters }
{}

/// A run and its slip, worked out by hand.
pub fn the_worked_run()
    ensures run { WorkedRun }
    ensures slip { WorkedSlip }
{}
