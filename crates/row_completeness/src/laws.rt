//! Laws about whole rows. Each is the contract of a function that does nothing.

ghost use Rattle.std.specs.Prelude.{◌≡◌, ℕ};
ghost use Rattle.catalogue_statements.specs.Representation.{RepresentsLinkRows};
ghost use Rattle.nested_sets.specs.Representation.{RepresentsSpanRows};
ghost use Rattle.sqlite.specs.Tree.{Trees};
ghost use Rattle.tree_core.specs.Encodings.{Links, Spans};
ghost use Rattle.tree_core.specs.Forest.{Forest};
ghost use Rattle.row_completeness.specs.WholePlaces.{RepresentsWhatItDescribes};

/// Whole rows of links that an office can have represent the forest that they describe. A row is whole if it has its
/// four cells, with null where its number would be repeated; whole rows are sorted by number.
pub fn links_represent()
    ensures { (db : Trees) → RepresentsWhatItDescribes RepresentsLinkRows Links db }
{}

/// Whole rows of spans that an office can have represent the forest that they describe. A row is whole if it has its
/// four cells, with null where its number would be repeated; whole rows are sorted by number.
pub fn spans_represent()
    ensures { (db : Trees) → RepresentsWhatItDescribes RepresentsSpanRows Spans db }
{}

/// Rows of links represent one forest at most.
pub fn links_tell_one()
    ensures { (db : Trees) (f g : Forest ℕ) → RepresentsLinkRows db f → RepresentsLinkRows db g → f ≡ g }
{}

/// Rows of spans represent one forest at most.
pub fn spans_tell_one()
    ensures { (db : Trees) (f g : Forest ℕ) → RepresentsSpanRows db f → RepresentsSpanRows db g → f ≡ g }
{}
