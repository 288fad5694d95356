//! Reads AtoM's archival description CSV.
#![tactic(auto)]

mod boxes;
mod cause;
mod column;
mod entries;
mod file;
mod findings;
mod header;
mod joined;
pub mod laws;
mod legacy;
mod read;
mod records;
mod rows;
mod trim;
mod values;

pub use cause::Cause;
pub use file::{File, FileFault, Row};
pub use legacy::remember;
pub use read::read_file;
