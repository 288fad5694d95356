//! Whether tables of any origin are those of a sound office, and which state they represent.
#![tactic(auto)]

mod day_rules;
pub mod laws;
pub mod laws_of_tables;
mod own_row;
mod own_tables;
mod schema_comparison;
mod verdict;
mod verdicts;
mod version;

pub use verdict::Verdict;
pub use verdicts::judge;
