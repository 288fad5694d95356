//! The statements on the catalogue's tables, each with the rows that it changes or returns. Each needs an open
//! transaction, and without one fails with `StoreFault::Schema`.
#![tactic(auto)]

pub mod containers;
pub mod elements;
pub mod housing;
mod link_places;
pub mod link_queries;
pub mod link_updates;
pub mod office;
pub mod row_types;
pub mod units;

pub use link_places::LinkPlaces;
pub use office::OfficeRow;
pub use units::NewUnit;
