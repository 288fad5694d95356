//! The tests of the crates that have no tables: descriptions, forests, files, the desk, previews and sessions; and rows
//! of their definitions, worked out by hand.
#![tactic(auto)]

#[cfg(test)]
mod descriptions;
#[cfg(test)]
mod desk_days;
#[cfg(test)]
mod files;
#[cfg(test)]
mod forests;
#[cfg(test)]
mod judgments;
#[cfg(test)]
mod previews;
#[cfg(test)]
mod session_tables;
#[cfg(test)]
mod sessions;
#[cfg(test)]
mod streams;
pub mod worked;
#[cfg(test)]
mod worked_aids;
