//! When the tables of a store represent an office, and what a command or a question does to them. The crate has
//! definitions and lemmas alone.
#![tactic(auto)]
