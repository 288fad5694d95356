//! The results of accepted commands.

use isad_core::{Day, List, Number};

/// A remark on a row of an imported file. It does not refuse the import.
#[derive(Debug, Clone, Copy, PartialEq, Eq)]
pub enum Remark {
    /// The unit's level belongs above that of the unit right above it (ISAD(G) 2.1).
    LevelTooHigh { row: u32 },
    /// The unit is a top, and lacks one of the elements that are essential for international exchange (ISAD(G) I.12).
    LacksEssential { row: u32 },
}

/// The result of an accepted command, with one case for each command.
#[derive(Debug, PartialEq, Drop)]
pub enum Done {
    OpenDay {
        day: Day,
    },
    /// The remarks, and the numbers of rows that changed a unit, made a new one, left one unchanged, or translate
    /// another row.
    Import {
        changed: u64,
        new: u64,
        remarks: List<Remark>,
        same: u64,
        translations: u64,
    },
    /// The number of units whose status was set, including those that already had it.
    SetStatus {
        units: u64,
    },
    SetClosure {
        unit: u64,
    },
    Move {
        unit: u64,
    },
    /// The number of units that were removed.
    Remove {
        units: u64,
    },
    Register {
        ticket: u64,
    },
    Renew {
        ticket: u64,
    },
    TakeSeat {
        seat: u32,
    },
    LeaveSeat {
        seat: u32,
    },
    Order {
        order: u64,
    },
    Cancel {
        order: u64,
    },
    /// The run's number, and the number of containers that it fetched.
    Run {
        run: u64,
        taken: u64,
    },
    Reshelve {
        containers: List<Number>,
    },
    Issue {
        order: u64,
    },
    Return {
        order: u64,
    },
    /// The permit as it now stands, with its last day.
    Permit {
        ticket: u64,
        unit: u64,
        until: Day,
    },
    Revoke {
        unit: u64,
    },
}
