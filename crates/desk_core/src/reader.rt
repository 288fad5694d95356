//! Readers, places and limits.

use isad_core::{Day, Number};

/// What the desk knows of the reader who has a ticket.
#[derive(Debug, Clone, Copy, PartialEq, Eq)]
pub struct Reader {
    pub ticket: u64,
    /// The last day of the ticket.
    pub until: Day,
    /// The seat, from 1, or none.
    pub seat: Option<u32>,
    /// How many containers are out with the ticket.
    pub held: u32,
}

/// Where a container is.
#[derive(Debug, Clone, Copy, PartialEq, Eq)]
pub enum Place {
    Shelf,
    Desk,
    /// Out with a reader, by this order.
    Out(Number),
}

/// The limits of the reading room.
#[derive(Debug, Clone, Copy, PartialEq, Eq)]
pub struct Limits {
    /// The number of seats.
    pub seats: u32,
    /// The most orders that a ticket may place in a day.
    pub daily: u32,
    /// The most containers that may be out with a ticket.
    pub hands: u32,
    /// The most containers that a run takes.
    pub run: u32,
}
