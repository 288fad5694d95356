//! An office over its tables: each command is one transaction and one step. Also `preview`: the finding aids of a file.
#![tactic(auto)]

mod commands;
mod faults;
mod first_marks;
mod inspection;
mod kept_marks;
pub mod laws;
mod machine;
mod migration;
mod named_numbers;
mod names;
mod new_office;
mod office_row;
mod offices;
mod queries;
mod settings;
mod transactions;
pub mod worked;

pub use faults::OpenFault;
pub use finding_aids::preview;
pub use migration::migrate;
pub use names::names_days_and_texts;
pub use office_core::{Answer, Busy, Command, Done, Machine, Query, Refusal, Remark, Reply};
pub use offices::Office;
pub use settings::{Settings, SettingsFault, is_country, is_repository};
pub use state_encoding::desk_consistency;
