//! The marks that bear on a unit that a container is attached to.

use visibility::Mark;

/// The marks that bear on a unit: those of its path, from the top down, and those of its branch, in walk order.
#[derive(Debug, PartialEq, Drop)]
pub struct Attached {
    pub path: Vec<Mark>,
    pub branch: Vec<Mark>,
}
