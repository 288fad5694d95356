//! Checks whether rows that were read from the desk's tables are those of a desk. It reads no tables itself.
//!
//! The rows may come from anywhere and hold any numbers.

mod context;
mod holdings;
mod key_counts;
mod number_set;
mod numbers;
mod orders;
mod readers;
mod rows;
mod runs;
mod tally;

pub use crate::consistency::context::Around;
pub use crate::consistency::holdings::are_good_holdings;
pub use crate::consistency::number_set::Numbers;
pub use crate::consistency::orders::are_good_orders;
pub use crate::consistency::readers::{are_good_permits, are_good_seats};
pub use crate::consistency::rows::{HoldingRow, OrderRow, PermitRow, RunLineRow, RunRow, SeatRow};
pub use crate::consistency::runs::are_good_runs;
