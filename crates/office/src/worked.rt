//! Examples of the rules in small offices, worked out by hand.

pub use office_core::worked::{
    worked_answers, worked_catalogue_rows, worked_desk_rows, worked_office, worked_rows,
    worked_shown_rows,
};
pub use state_encoding::worked::{
    worked_catalogue_causes, worked_cell_causes, worked_desk_causes, worked_tables,
};
