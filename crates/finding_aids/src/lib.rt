//! What a file would show if it were published.
#![tactic(auto)]

mod previews;

pub use previews::preview;
