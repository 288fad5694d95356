//! Laws of tables of any origin. Each function does nothing; its contract is the law.

ghost use Rattle.catalogue_statements.specs.Representation.{RepresentsLinkRows};
ghost use Rattle.office_core.specs.State.{State};
ghost use Rattle.adoption.specs.Catalogue.{RowsRepresentTheCatalogue};
ghost use Rattle.adoption.specs.Desk.{RowsRepresentTheDesk};
ghost use Rattle.adoption.specs.OwnTables.{ShownTablesStandInOrder};
ghost use Rattle.adoption.specs.Tables.{GoodTablesRepresentTheirState, SoundTablesRepresentTheirState};
ghost use Rattle.nested_sets.specs.Representation.{RepresentsSpanRows};
ghost use Rattle.sqlite.specs.Effect.{Database};
ghost use Rattle.office_tables.specs.Versions.{Version, First, Second};

use integrity_checks::CheckedPlaces;

/// Tables of a live connection that stand in order and have none of the causes 1 to 9 represent the catalogue that
/// their rows describe, for each way to store the places. These rows have their keys.
pub fn catalogue_rows_represent_the_catalogue<P: CheckedPlaces>()
    ensures { (db : Database) → RowsRepresentTheCatalogue P.represents P.version db }
{}

/// Tables of a live connection that stand in order and have none of the causes 1 to 9 also represent the desk of their
/// rows. These rows have their keys.
#[tactic(auto, using(crate::proofs::desk::DeskTables::desk_shown))]
pub fn desk_rows_represent_the_desk()
    ensures { (version : Version) (db : Database) → RowsRepresentTheDesk version db }
{}

/// Tables of a live connection that stand in order and have none of the causes 1 to 9 represent the state that their
/// rows describe, which is sound except for the rules of the day, for each way to store the places.
pub fn good_tables_represent_their_state<P: CheckedPlaces>()
    ensures { (db : Database) → GoodTablesRepresentTheirState P.represents P.version db }
{}

/// Tables of a live connection that stand in order and have none of the ten causes represent the state that their rows
/// describe, which is sound, for each way to store the places.
pub fn sound_tables_represent_their_state<P: CheckedPlaces>()
    ensures { (db : Database) → SoundTablesRepresentTheirState P.represents P.version db }
{}

/// The rows of the tables of an office of version 1 stand in order, as tables that are opened must.
pub fn tables_of_links_stand_in_order()
    ensures { (db : Database) (s : State) → ShownTablesStandInOrder RepresentsLinkRows First db s }
{}

/// The rows of the tables of an office of version 2 stand in order, as tables that are opened must.
pub fn tables_of_spans_stand_in_order()
    ensures { (db : Database) (s : State) → ShownTablesStandInOrder RepresentsSpanRows Second db s }
{}
