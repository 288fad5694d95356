//! The limits of an office, of its files and of a server: a number stands here, and nowhere else in the code.
//! `specs/Limits.antt` names them for contracts. Texts are not made of numbers, so the help of the command line has
//! some of them again. Elsewhere stand what a message by HTTP may have (`http_messages`, `http_desk`), the form of the
//! codes of a country and of an office (`office_core`), and the ports: those of their type, except 0.

/// The most units at a time.
pub const MOST_UNITS: u64 = 200_000;

/// The most unit numbers that are ever given.
pub const MOST_UNIT_NUMBERS: u64 = 100_000_000;

/// The most units above one another, including the lowest.
pub const MOST_DEEP: u64 = 64;

/// The most bytes of a field of a file that is read.
pub const MOST_BYTES: usize = 65_535;

/// The most rows of a file below its header.
pub const MOST_ROWS: u32 = 20_000;

/// The most bytes of the name of a source.
pub const MOST_SOURCE_BYTES: usize = 64;

/// The most containers that are ever numbered.
pub const MOST_CONTAINERS: u64 = 100_000;

/// The most bytes of a reader's name.
pub const MOST_NAME_BYTES: usize = 100;

/// The most seats of a reading room.
pub const MOST_SEATS: u64 = 200;

/// The most orders that a ticket may place in a day.
pub const MOST_DAILY: u64 = 50;

/// The most containers that may be out with a ticket.
pub const MOST_HANDS: u64 = 10;

/// The most containers that a run takes.
pub const MOST_RUN_SIZE: u64 = 100;

/// The most tickets that are ever given.
pub const MOST_TICKETS: u64 = 1_000_000;

/// The most permits of one ticket.
pub const MOST_PERMITS: u64 = 100;

/// The most orders that are ever placed.
pub const MOST_ORDERS: u64 = 10_000_000;

/// The most runs that are ever made.
pub const MOST_RUNS: u64 = 1_000_000;

/// The most connections that a server takes before it ends.
pub const MOST_CONNECTIONS: u32 = 10_000;

/// The first day that an office knows, 1900-01-01, counted from 1970-01-01.
pub const FIRST_DAY: i64 = -25_567;

/// The last day that an office knows, 9999-12-31.
pub const LAST_DAY: i64 = 2_932_896;
