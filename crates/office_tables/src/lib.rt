//! The tables of an office: their schema, what a statement leaves, transactions, and why a call fails.
#![tactic(auto)]

mod change_statement;
mod fault;
pub mod from_row;
mod number;
mod query;
mod streamed_rows;
pub mod table_creation;
mod table_statements;
mod tables;
mod transaction;
pub mod value;
mod versions;

pub use fault::StoreFault;
pub use number::{cell, cell_or_null, number_after, number_at, number_or_null_at};
pub use streamed_rows::Gathering;
pub use table_creation::{create_index, create_table};
pub use table_statements::{change, find, find_number, find_one, gather};
pub use tables::{Closed, Tables};
pub use transaction::{begin, commit, roll_back};
pub use versions::{NEWEST_VERSION, Versioned};
