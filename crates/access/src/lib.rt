//! Who may have which container: whether one is open to a reader, the gate after a change, and the rules of the day
//! about what is out. All of it is decided from the marks of all units in memory. Of the tables only the units of a
//! container are read and, if one of them is withheld from the public, a reader's permits.
#![tactic(auto)]

mod clean_units;
mod day_rules;
mod gate;
mod housed_units;
mod near_loans;
mod openness;
mod unit_marks;

pub use day_rules::breaks_day_rules;
pub use gate::{lowest_withheld, pass_gate};
pub use near_loans::{loans_near, pass_gate_changed, pass_gate_near, pass_gate_with};
pub use openness::{is_open_today, open_today};
pub use unit_marks::all_marks;
