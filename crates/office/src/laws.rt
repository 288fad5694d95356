//! Laws of an office over its tables, call after call. Each function does nothing; its contract is the law.

ghost use Rattle.std.specs.Prelude.{List};
ghost use Rattle.office.specs.Runs.{AreCalls, Call, IsMachinesRun};

pub use catalogue_core::laws::{
    numbers_are_places, open_by_marks, pages_tell_the_housing, told_where_not_withheld,
};
use office_core::Machine;
pub use office_core::laws::{
    all_that_is_published_is_shown, answered_from_the_published, days_stay_days, desk_stays_sound,
    given_in_order, imports_again, imports_bring_the_new, imports_keep_the_catalogue,
    issues_the_first, nothing_leaks, numbers_stay, only_the_published_is_shown, open_to_holders,
    orders_go_on, out_apart, settings_stay, starts_sound, stays_sound, told_by_number,
    units_come_new,
};
pub use office_core::laws_of_runs::{
    answers_are_of_their_time, imports_row_by_row, queries_change_nothing, settings_without_a_fault,
};
pub use office_core::laws_of_texts::{
    new_offices_are_sound, offices_stay_sound, sound_offices_are_kept, texts_stay_texts,
};
pub use state_encoding::laws::{
    catalogue_has_no_cause, cells_have_no_cause, cells_without_a_cause, links_describe_the_forest,
    one_row_changes, rows_describe_the_catalogue, rows_read_back, rows_without_a_cause,
    spans_describe_the_forest, tables_describe_the_state, tables_have_no_cause, texts_are_utf8,
};
pub use state_encoding::laws_of_offices::{
    sound_desks_are_legible, sound_offices_are_read, sound_offices_are_told,
    states_are_represented, versions_differ_in_places,
};

/// Over any list of calls, even if some of them were busy, the office runs as the machine does, as long as its store
/// has returned what was written to it. The calls that were not busy return the machine's replies, each with its JSON,
/// and the machine's answers. The office is then in the machine's state. If the last call was a command that was
/// accepted, it is open.
pub fn calls_are_the_machines_run<M: Machine>()
    ensures { (calls : List Call) (old new : M) → AreCalls M.represents M.is_intact M.is_open old new calls
        → IsMachinesRun M.represents M.is_intact M.is_open old new calls }
{}
