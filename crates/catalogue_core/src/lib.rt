//! What a catalogue is, apart from the tables that store it.
#![tactic(auto)]

pub mod laws;
pub mod laws_of_rows;
mod sources;

pub use sources::is_source;
