//! The reading room's decisions, from values that the caller passes in. It reads no tables.
#![tactic(auto)]

pub mod consistency;
mod issue;
pub mod laws;
mod names;
mod order;
mod reader;
mod refusal;
mod run;
mod seat;
mod slip;

pub use issue::{AtDesk, may_issue};
pub use names::is_name;
pub use order::{Ask, may_order};
pub use reader::{Limits, Place, Reader};
pub use refusal::{Refusal, known_container};
pub use run::{Candidate, pick_reshelve, pick_run};
pub use seat::{may_leave, may_sit};
pub use slip::slip_text;
