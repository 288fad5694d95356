//! The questions of the desk over an office's tables, each within a transaction.
#![tactic(auto)]

mod json_values;
mod loans;
mod permits;
mod queues;
mod reader_card;
mod slips;

pub use loans::issued_now;
pub use permits::reader_permits;
pub use queues::queue;
pub use reader_card::reader_orders;
pub use slips::run_slip;
