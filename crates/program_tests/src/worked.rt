//! Exit statuses and messages of the program, computed.

ghost use Rattle.program_tests.specs.WorkedFaults.{Faulty};

/// Each fault has the exit status and the message of the rows.
pub fn worked_faults()
    ensures { Faulty }
{}
