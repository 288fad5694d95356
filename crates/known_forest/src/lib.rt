//! The marks of a whole forest of units, kept in memory: they answer which units stand above, below and beside a unit,
//! and change with its status, its closure and its containers. The crate knows no table.
#![tactic(auto)]

mod above;
mod changes;
mod forest;
pub mod laws;
mod places;
mod walks;

pub use forest::KnownForest;
