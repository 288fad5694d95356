//! Small cases of the definitions, computed.
ghost use Rattle.http_desk.specs.WorkedExamples.{Answered};
ghost use Rattle.http_desk.specs.WorkedRuns.{Carried};
ghost use Rattle.http_desk.specs.WorkedSessions.{SessionsTalked};

/// Worked answers, to the byte.
pub fn worked_answers()
    ensures { Answered }
{}

/// Worked sessions, to the byte.
pub fn worked_sessions()
    ensures { SessionsTalked }
{}

/// What worked messages mean to the machine, and the commands of two worked sessions.
pub fn worked_runs()
    ensures { Carried }
{}
