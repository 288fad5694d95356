//! The questions to the office, and their answers.

use desk_core::Refusal;
use isad_core::List;

/// A question. It changes nothing. The first three are the public's, and are answered from what is published.
#[derive(Debug, Clone, Copy, PartialEq, Eq)]
pub enum Query {
    /// The published units at the top.
    Fonds,
    /// The finding aid of a unit.
    Aid { unit: u64 },
    /// The page of a unit.
    Page { unit: u64 },
    /// The reader of a ticket, with name, last day and seat, and the orders that wait or are out.
    ReaderOrders { ticket: u64 },
    /// Where a container is, and who waits for it.
    Queue { container: u64 },
    /// The slip of a run.
    RunSlip { run: u64 },
    /// The containers that are out.
    IssuedNow,
    /// The permits of a ticket.
    ReaderPermits { ticket: u64 },
}

/// An answer.
#[derive(Debug, PartialEq, Drop)]
pub enum Answer {
    /// A text in UTF-8.
    Text(List<u8>),
    /// A JSON text.
    Json(List<u8>),
    /// What was asked for does not exist, or is not shown.
    Unknown(Refusal),
}
