//! Who may see units: what is withheld from a reader, which units share the containers above them, and what the public
//! sees of a forest. The crate knows the marks of units, and nothing else of them.
#![tactic(auto)]

pub mod laws;
mod marks;

pub use marks::{Kept, Mark, clean_contents, clean_path, has_permit, is_closed, prune};
