//! The reading room's tables. The calls need an open transaction, and without one fail with `StoreFault::Schema`. If
//! the desk is not legible (`IsLegible`), calls that read may fail with `Schema`, too. After a fault the caller must
//! roll back: a part may be done.
#![tactic(auto)]

mod blank;
mod chosen_loans;
mod container_labels;
mod container_orders;
mod desk_containers;
mod holdings;
mod loans;
mod office_day;
mod order_writes;
mod orders;
mod queue_heads;
mod queues;
mod reader_permits;
mod reader_summary;
mod readers;
mod run_candidates;
mod run_lines;
mod runs;
mod table_creation;
mod taken_seats;
mod ticket_holders;
mod waiting_orders;

pub use blank::is_blank;
pub use chosen_loans::issued_among;
pub use container_orders::ContainerOrder;
pub use desk_containers::at_desk;
pub use holdings::set_place;
pub use loans::{is_some_out, issued};
pub use office_day::open_day;
pub use order_writes::{append_order, end_order};
pub use orders::{OrderState, PlacedOrder, WaitingOrder, order};
pub use queue_heads::{QueueHead, queue_head};
pub use queues::{ContainerQueue, queue};
pub use reader_permits::{Permit, grant, permits, revoke};
pub use reader_summary::{LiveOrder, ReaderCard, reader};
pub use readers::{add_reader, is_registered, renew};
pub use run_candidates::{first_orders, on_shelf};
pub use run_lines::run;
pub use runs::{Brought, record_run};
pub use table_creation::create_desk;
pub use taken_seats::{TakenSeat, seats, set_seat};
pub use ticket_holders::ticket_holder;
