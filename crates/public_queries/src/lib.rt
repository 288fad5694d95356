//! The public's questions over an office's tables, each within a transaction: the tops, the page of a unit, and its
//! finding aid.
#![tactic(auto)]

mod aids;
mod head_lines;
mod own_rows;
mod page_lines;
mod page_needs;
mod pages;
mod path_heads;
mod path_marks;
mod path_values;
mod public_heads;
mod tops;
mod visible_unit;

pub use aids::aid;
pub use pages::page;
pub use tops::fonds;
