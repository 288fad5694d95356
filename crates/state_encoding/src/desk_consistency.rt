//! Laws about the causes 6 to 10 in rows of doubtful origin. Each is the contract of a function that does nothing.

ghost use Rattle.office_tables.specs.Versions.{Version};
ghost use Rattle.state_encoding.specs.DeskSoundness.{PassingRowsAreSound, SoundTablesPass};
ghost use Rattle.state_encoding.specs.OfficeRows.{OfficeRows};
ghost use Rattle.office_core.specs.State.{State};

/// The rows of a sound state have none of these causes, in either version, and meet the keys of the desk's tables.
pub fn sound_desks_pass()
    ensures { (version : Version) (s : State) → SoundTablesPass version s }
{}

/// If the containers are numbered from 1 and differ, and each unit has a place, then desk rows that meet their keys and
/// have none of these causes describe a sound desk, with days of the calendar and permits for units that exist, and
/// they are exactly the rows of that desk.
pub fn passing_desks_are_sound()
    ensures { (version : Version) (t : OfficeRows) → PassingRowsAreSound version t }
{}
