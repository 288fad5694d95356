//! Whether the tables of a catalogue, of its places and of a reading room can be an office's, whatever their cells are.
#![tactic(auto)]

mod ascending_numbers;
mod catalogue_check;
mod catalogue_defect;
mod cells;
mod checked_places;
mod containers;
mod desk_check;
mod desk_defect;
mod desk_rows;
mod elements;
mod heights;
mod housing;
mod links;
mod readers;
mod spans;
mod units;

pub use catalogue_check::load_check;
pub use catalogue_defect::CatalogueDefect;
pub use checked_places::{CheckedPlaces, Placed};
pub use desk_check::load_check_desk;
pub use desk_defect::DeskDefect;
