//! Containers, each with an order for it.

use isad_core::Number;
use office_tables::from_row::FromRow;
use office_tables::{StoreFault, number_at};
use sqlite::Row;

/// A container, an order for it, and the ticket that placed the order: a loan, what a run may take, or a line of a run.
#[derive(Debug, Clone, Copy, PartialEq, Eq)]
pub struct ContainerOrder {
    pub container: Number,
    pub order: Number,
    pub ticket: Number,
}

impl FromRow for ContainerOrder {
    ghost use Rattle.std.specs.Prelude.{pos, [], ◌∷◌, ⊤};
    ghost use Rattle.sqlite.specs.declared.types.Value.TheVariants.{Int};

    ghost cells = { λ o. Int (pos o.container) ∷ Int (pos o.order) ∷ Int (pos o.ticket) ∷ [] };

    ghost is_legible = { λ _. ⊤ };

    fn read(row: &Row) -> Result<ContainerOrder, StoreFault> {
        Ok(ContainerOrder {
            container: number_at(row, 0)?,
            order: number_at(row, 1)?,
            ticket: number_at(row, 2)?,
        })
    }
}
