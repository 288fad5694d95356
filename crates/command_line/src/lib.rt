//! The words of the program as `clap` reads them: its commands with their options and files, and the values that the
//! words give them.
#![tactic(auto)]

mod arguments;
mod option_values;
pub mod worked;

pub use arguments::record_office;
pub use option_values::{connections, day, number, optional_text, port, text, value_of};
