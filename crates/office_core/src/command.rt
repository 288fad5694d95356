//! The commands of the office.

use isad_core::{Day, List, Text};

/// A command. Units, tickets, containers and orders are named by their numbers. Any number may be passed; a command is
/// refused if a number in it names nothing.
#[derive(Debug, PartialEq, Drop)]
pub enum Command {
    /// Begins a new day, which must be later than the current one. All seats become free, and no container may be out.
    OpenDay {
        day: Day,
    },
    /// Imports the descriptions of a file. The source names the place that the file comes from.
    Import {
        source: Text,
        file: List<u8>,
    },
    /// Makes a unit, or its whole branch, a draft, or publishes it.
    SetStatus {
        unit: u64,
        draft: bool,
        branch: bool,
    },
    /// Closes a unit until a day, on which it is open again, or ends its closure.
    SetClosure {
        unit: u64,
        until: Option<Day>,
    },
    /// Moves a branch below another unit, as its last child, or to the top.
    Move {
        unit: u64,
        parent: Option<u64>,
    },
    /// Removes a branch.
    Remove {
        unit: u64,
    },
    /// Gives a reader a ticket with this last day.
    Register {
        name: Text,
        until: Day,
    },
    /// Changes the last day of a ticket.
    Renew {
        ticket: u64,
        until: Day,
    },
    TakeSeat {
        ticket: u64,
    },
    LeaveSeat {
        ticket: u64,
    },
    /// Orders a container for a ticket.
    Order {
        ticket: u64,
        container: u64,
    },
    /// Cancels a waiting order.
    Cancel {
        order: u64,
    },
    /// Fetches containers from the shelf to the desk: those with the lowest first orders whose readers they are open
    /// to, as many as a run may take.
    Run,
    /// Takes the containers that nobody waits for from the desk back to the shelf.
    Reshelve,
    /// Issues a container at the desk to the ticket whose order is first in its queue.
    Issue {
        container: u64,
        ticket: u64,
    },
    /// Returns a container that is out to the desk.
    Return {
        container: u64,
    },
    /// Gives a ticket a permit for a unit, with its last day. If it has one, that gets the later of the two days.
    Permit {
        ticket: u64,
        unit: u64,
        until: Day,
    },
    /// Takes a permit away.
    Revoke {
        ticket: u64,
        unit: u64,
    },
}
