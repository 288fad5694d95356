//! What the rows of an office's tables describe, and each cause for which they are refused.
#![tactic(auto)]

pub mod desk_consistency;
pub mod laws;
pub mod laws_of_offices;
pub mod worked;
