//! The program: one command of a record office, from its words and streams to its exit status.
#![tactic(auto)]

pub mod commands;
pub mod durable_office;
pub mod faults;
pub mod files;
pub mod imports;
pub mod integrity;
pub mod laws;
pub mod loopback;
pub mod perform;
pub mod ports;
pub mod previews;
pub mod server;
pub mod sessions;
pub mod stores;
pub mod streams;
pub mod tasks;
pub mod words;
