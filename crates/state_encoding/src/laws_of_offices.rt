//! Laws about the tables of offices. Each is the contract of a function that does nothing.

ghost use Rattle.std.specs.Prelude.{◌≡◌};
ghost use Rattle.desk_core.specs.LegibleDesks.{IsLegible};
ghost use Rattle.office_core.specs.SoundOffice.{IsSoundOffice};
ghost use Rattle.office_core.specs.State.{State};
ghost use Rattle.state_encoding.specs.CellsOfOffices.{IsRepresentedByTrees, SoundOfficesAreRead, SoundOfficesAreTold};
ghost use Rattle.state_encoding.specs.OfficeRows.{tables};
ghost use Rattle.state_encoding.specs.Versions.{with_spans};
ghost use Rattle.sqlite.specs.Tree.{Trees};
ghost use Rattle.office_tables.specs.Versions.{Version, First, Second};

/// The rows of a sound office's desk meet everything that a store requires of the desk rows that it reads.
pub fn sound_desks_are_legible()
    ensures { (version : Version) (s : State) → IsSoundOffice s → IsLegible (tables version s).desk }
{}

/// The tables of version 2 are those of version 1, except for the version and the places.
pub fn versions_differ_in_places()
    ensures { (s : State) → tables Second s ≡ with_spans s (tables First s) }
{}

/// Each state is represented by some tables, in either version.
pub fn states_are_represented()
    ensures { (version : Version) (s : State) → IsRepresentedByTrees version s }
{}

/// If tables represent a sound office, every row of them is read, whatever the order of the rows and whatever their
/// hidden numbers: the desk's rows in the order of their keys, and the catalogue's up to their order.
pub fn sound_offices_are_read()
    ensures { (version : Version) (db : Trees) (s : State) → SoundOfficesAreRead version db s }
{}

/// If tables represent a sound office, they meet the keys, have no cause and describe that office, whatever the order
/// of the rows and whatever their hidden numbers.
pub fn sound_offices_are_told()
    ensures { (version : Version) (db : Trees) (s : State) → SoundOfficesAreTold version db s }
{}
