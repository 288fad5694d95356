//! The headline as one contract: sessions with an office over nested sets, and calls to it, one after the other.
#![tactic(auto)]

pub mod visits;
