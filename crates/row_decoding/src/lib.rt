//! The rows of tables of doubtful origin, as far as they can be read.
#![tactic(auto)]

mod cells;
mod decoded_rows;
mod places;
mod tables;

pub use cells::{cell, number_in, number_of, number_or_null_in, whole_in};
pub use decoded_rows::{FromCells, Gathered, read_rows};
pub use tables::{
    container_numbers, holdings, orders, permits, run_lines, runs, seats, unit_numbers,
};
