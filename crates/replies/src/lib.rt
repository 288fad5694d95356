//! The bytes of the replies to commands.
#![tactic(auto)]

mod json_values;
mod reply_values;

pub use json_values::{day_value, text_of};
pub use reply_values::json_of;
