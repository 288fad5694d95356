//! If the rows of tables of any origin are whole and can be read, they are the rows of what is read.
#![tactic(auto)]

pub mod laws;
