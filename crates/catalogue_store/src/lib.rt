//! The catalogue of an office, kept in tables: units, containers and places. The calls need an open transaction, and
//! without one fail with `StoreFault::Schema`. If the catalogue is not within the limits of an office (`IsKept`), they
//! may fail with `Schema`, too. After a fault the caller must roll back: a part may be done.
#![tactic(auto)]

mod branch_moves;
mod catalogue;
mod container_marks;
mod descriptions;
mod heads;
mod import_entries;
pub mod laws;
mod office;
mod presence;
mod status_and_closure;
mod unit_values;

pub use branch_moves::{move_unit, remove_branch};
pub use catalogue::{create, known};
pub use catalogue_statements::{NewUnit, OfficeRow};
pub use container_marks::{branch_marks, contents_marks, path_marks};
pub use descriptions::{add_unit, replace_values};
pub use heads::{Head, find_head};
pub use import_entries::{enter_unit, enter_values};
pub use office::{Office, office_row, settings};
pub use office_tables::{StoreFault, begin, commit, create_index, create_table, roll_back};
pub use presence::is_unit;
pub use status_and_closure::{set_closure, set_status};
pub use tree_places::{Attached, LinkPlaces, Places, marks_of};
pub use unit_values::{UnitContainers, UnitValues, containers, level, texts, values};
