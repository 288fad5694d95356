//! Laws about what rows describe. Each is the contract of a function that does nothing.

ghost use Rattle.std.specs.Prelude.{◌≡◌, ℕ, List};
ghost use Rattle.office_core.specs.State.{State};
ghost use Rattle.office_core.specs.SoundDesk.{IsSoundDesk};
ghost use Rattle.state_encoding.specs.DeskEncoding.{OneRowChanges};
ghost use Rattle.tree_core.specs.Forest.{Forest};
ghost use Rattle.tree_core.specs.Spans.{spans_from};
ghost use Rattle.tree_core.specs.Links.{HoldsLinks};
ghost use Rattle.tree_core.specs.declared.rows.Link.{Link};
ghost use Rattle.office_tables.specs.Versions.{Version};
ghost use Rattle.isad_core.specs.Texts.{Bytes};
ghost use Rattle.sqlite.specs.Tree.{Trees};
ghost use Rattle.state_encoding.specs.CellSoundness.{CellsHaveNoCause, CellsDescribeASoundState, SaysUtf8};
ghost use Rattle.state_encoding.specs.RowSoundness.{HasNoCatalogueCause, HasNoCause, SaysASoundState, SaysTheCatalogue};
ghost use Rattle.catalogue_core.specs.CatalogueRows.{LinkRows, SpanRows, places_said};
ghost use Rattle.state_encoding.specs.OfficeRows.{OfficeRows, SaysAllButUnits, state_of, tables};
ghost use Rattle.office_core.specs.Soundness.{IsSound};

/// The rows of a state with a sound desk describe all of that state except its forest of units, in either version.
pub fn rows_read_back()
    ensures { (version : Version) (s : State) → IsSoundDesk s → SaysAllButUnits version s }
{}

/// If the desk is sound, an accepted `Issue` sets the state of the row of the order in its reply to out, and changes no
/// other row of `orders`.
pub fn one_row_changes()
    ensures { (s : State) → IsSoundDesk s → OneRowChanges s }
{}

/// The span rows of a forest of unit numbers describe that forest.
pub fn spans_describe_the_forest()
    ensures { (f : Forest ℕ) → places_said (SpanRows (spans_from 1 f)) ≡ f }
{}

/// The link rows of a forest of unit numbers describe that forest, in any order, if no number is repeated.
pub fn links_describe_the_forest()
    ensures { (f : Forest ℕ) (links : List Link) → HoldsLinks f links → places_said (LinkRows links) ≡ f }
{}

/// The rows of a sound state describe that state, in either version.
pub fn tables_describe_the_state()
    ensures { (version : Version) (s : State) → IsSound s → state_of (tables version s) ≡ s }
{}

/// Rows of the catalogue's tables that meet the keys and have none of the causes 1 to 5 describe a sound catalogue, and
/// they are its rows, table by table, up to their order.
pub fn rows_describe_the_catalogue()
    ensures { (version : Version) (t : OfficeRows) → SaysTheCatalogue version t }
{}

/// In either version, the rows of a sound catalogue meet the keys, and have none of the causes 1 to 5.
pub fn catalogue_has_no_cause()
    ensures { (version : Version) (s : State) → HasNoCatalogueCause version s }
{}

/// In either version, the rows of a sound state meet the keys, and have none of the causes 1 to 10.
pub fn tables_have_no_cause()
    ensures { (version : Version) (s : State) → HasNoCause version s }
{}

/// Rows that meet the keys and have no cause describe a sound state, and they are the rows of that state, the
/// catalogue's up to their order.
pub fn rows_without_a_cause()
    ensures { (version : Version) (t : OfficeRows) → SaysASoundState version t }
{}

/// A text cell yields its text if that is UTF-8, and none if it is not.
pub fn texts_are_utf8()
    ensures { (t : Bytes) → SaysUtf8 t }
{}

/// If the tables of a file have no cause, then whatever their cells are, every row can be read and the rows have no
/// cause.
pub fn cells_have_no_cause()
    ensures { (version : Version) (db : Trees) → CellsHaveNoCause version db }
{}

/// If the rows of a file's tables meet the keys and the tables have no cause, then whatever their cells are, they
/// describe a sound office and are its tables, and every text in them is UTF-8.
pub fn cells_without_a_cause()
    ensures { (version : Version) (db : Trees) → CellsDescribeASoundState version db }
{}
