//! What a forest that is known in memory tells of the units of a catalogue: the marks of a path and of a branch, and
//! the units right below one. It is changed as they are. The crate knows no table.
#![tactic(auto)]

mod changes;
mod units;

pub use changes::{UnitChange, set_closure, set_status, with_change};
pub use units::{branch_marks, path_marks, units_below};
