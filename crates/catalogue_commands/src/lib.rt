//! The commands that change the catalogue of an office, over its tables, each within a transaction. If a command is
//! refused, the caller rolls the transaction back.
#![tactic(auto)]

mod closure;
mod removal;
mod status;
mod unit_move;

pub use closure::change_closure;
pub use removal::remove_unit;
pub use status::change_status;
pub use unit_move::move_to;
