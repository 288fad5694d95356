//! Laws of the definitions, each stated as the contract of a function that does nothing, and the definitions applied to
//! marks worked by hand.

ghost use Rattle.std.specs.Prelude.{◌≡◌, ℕ, ℤ, pos, [], ◌∷◌, ◌++◌, ◌&&◌, List, true, false, not, map, nat_eq};
ghost use Rattle.std.specs.List.{list_all, list_any};
ghost use Rattle.tree_core.specs.Forest.{Forest, each, has, path, HasDistinctIds};
ghost use Rattle.visibility.specs.Marks.{withholds, contents_paths, public_walk};
ghost use Rattle.visibility.specs.Visibility.{sharing};
ghost use Rattle.visibility.specs.WorkedMarks.{example_marks, kept_row};
ghost use Rattle.visibility.specs.declared.marks.Mark.{Mark};

/// Which paths are checked for a unit's contents, which units share the containers above them, and when a unit's path
/// and contents are clean. For the first two, no two units may have the same id.
pub fn contents()
    // The paths that are checked are those of the unit and of the units below it that share its containers.
    ensures paths { (unit : Mark) (below : Forest Mark)
        → HasDistinctIds (each (λ mark. mark.id) below)
        → contents_paths unit below ≡ (unit ∷ []) ∷ map (λ mark. unit
        ∷ path (λ other. nat_eq mark.id other.id) below) (sharing (λ mark. mark.boxed) below) }

    // A unit shares the containers above exactly if no unit on its path has containers of its own.
    ensures sharing { (f : Forest Mark) (unit : ℕ) → HasDistinctIds (each (λ mark. mark.id) f)
        → has (λ mark. nat_eq unit mark.id) f ≡ true
        → list_any (λ mark. nat_eq unit mark.id) (sharing (λ mark. mark.boxed) f)
        ≡ not (list_any (λ mark. mark.boxed) (path (λ mark. nat_eq unit mark.id) f)) }

    // The unit's path and its contents are clean exactly if, for each unit of the contents, nothing on its whole path
    // withholds it.
    ensures open { (today : ℤ) (above : List Mark) (unit : Mark) (below : Forest Mark)
        → (not (withholds today false (above ++ unit ∷ []))
        && list_all (λ path. not (withholds today (list_any (λ mark. mark.permit) above) path))
        (contents_paths unit below))
        ≡ list_all (λ path. not (withholds today false (above ++ path))) (contents_paths unit below) }
{}

/// What the public sees of the worked forest if 2 is a draft and 3 is closed until the next day, and what it sees on
/// that next day.
pub fn worked_marks()
    ensures closed { public_walk (pos 19783) example_marks
        ≡ kept_row 1 0 false ∷ kept_row 3 1 true ∷ kept_row 4 0 false ∷ [] }
    ensures reopened { public_walk (pos 19784) example_marks
        ≡ kept_row 1 0 false ∷ kept_row 3 1 false ∷ kept_row 4 0 false ∷ [] }
{}
