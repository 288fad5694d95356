//! The import of files into the catalogue of an office, over its tables, within a transaction.
#![tactic(auto)]

mod ancestor_depths;
mod arrivals;
mod catalogue_import;
mod legacy;
mod numbers;
mod paths;
mod pending_import;
mod remarks;
mod row_entry;
mod row_plan;

pub use catalogue_import::import;
