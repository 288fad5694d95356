//! The commands of the reading room over an office's tables, each within a transaction. If a command is refused, the
//! caller rolls the transaction back.
#![tactic(auto)]

mod cancellation;
mod container_moves;
mod container_return;
mod emptiness;
mod issuance;
mod new_day;
mod order_placement;
mod permits;
mod registration;
mod renewal;
mod revocation;
mod run_creation;
mod seats;
mod shelf_return;

pub use cancellation::cancel;
pub use container_return::return_container;
pub use issuance::issue;
pub use new_day::open;
pub use order_placement::order;
pub use permits::permit;
pub use registration::register;
pub use renewal::renew_ticket;
pub use revocation::revoke_permit;
pub use run_creation::fetch;
pub use seats::{leave_seat, take_seat};
pub use shelf_return::reshelve;
