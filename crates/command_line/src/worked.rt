//! Command lines that are taken and others that are not, computed.

ghost use Rattle.command_line.specs.WorkedCommands.{Offices, Others, Previews, Work};

/// Words of previews.
pub fn worked_previews()
    ensures { Previews }
{}

/// Words of new offices: each setting is needed, and its number must be from 0 to 4294967295 here.
pub fn worked_offices()
    ensures { Offices }
{}

/// Words of work on an office in a file.
pub fn worked_tasks()
    ensures { Work }
{}

/// Words that are no command.
pub fn worked_others()
    ensures { Others }
{}
