//! The machine of the office: each command is one step. Also its queries and its laws. This crate knows no tables.
#![tactic(auto)]

mod command;
mod done;
pub mod laws;
pub mod laws_of_rules;
pub mod laws_of_runs;
pub mod laws_of_texts;
mod machine;
mod query;
pub mod worked;

pub use command::Command;
pub use desk_core::Refusal;
pub use done::{Done, Remark};
pub use machine::{Busy, Machine, Reply};
pub use query::{Answer, Query};
