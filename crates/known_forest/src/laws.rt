//! Which marks of a worked forest are chosen, for one unit and for a branch.

ghost use Rattle.std.specs.Prelude.{◌≡◌, [], ◌∷◌, true, false, map};
ghost use Rattle.tree_core.specs.Forest.{nodes};
ghost use Rattle.visibility.specs.WorkedMarks.{example_marks};
ghost use Rattle.known_forest.specs.KnownMarks.{is_chosen};

/// In the worked forest 2 and 3 stand below 1, and 4 is a top: what a change of 1 concerns, with its branch and without,
/// and what a change of a unit that is not there concerns.
pub fn worked_changes()
    ensures branch { map (is_chosen true 1 example_marks) (nodes example_marks)
        ≡ true ∷ true ∷ true ∷ false ∷ [] }
    ensures unit { map (is_chosen false 1 example_marks) (nodes example_marks)
        ≡ true ∷ false ∷ false ∷ false ∷ [] }
    ensures absent { map (is_chosen true 5 example_marks) (nodes example_marks)
        ≡ false ∷ false ∷ false ∷ false ∷ [] }
{}
