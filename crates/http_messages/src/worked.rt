//! Small cases of the definitions, computed.
ghost use Rattle.http_messages.specs.WorkedExamples.{Paths, Read, Weighed};
ghost use Rattle.http_messages.specs.WorkedTable.{Tabled};

/// Paths of targets.
pub fn worked_paths()
    ensures { Paths }
{}

/// Heads that are refused or accepted.
pub fn worked_heads()
    ensures { Weighed }
{}

/// Bodies and the commands that they give.
pub fn worked_bodies()
    ensures { Read }
{}

/// All routes: the table has these and no others.
pub fn worked_table()
    ensures { Tabled }
{}
