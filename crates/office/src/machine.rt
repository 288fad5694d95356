//! An office over its tables is a `Machine`.

use crate::offices::Office;
use catalogue_store::Places;
use office_core::{Answer, Busy, Command, Machine, Query, Reply};
use sqlite::Alter;
use std::alloc::Global;

impl<P: Places, S: Alter> Machine for Office<P, S> {
    ghost use Rattle.office.specs.IdleOffice.{has_clean_disk, is_shown, is_still_open};

    ghost represents = { is_shown S.Store P.represents P.version };

    ghost is_intact = { has_clean_disk S.Store };

    ghost is_open = { is_still_open S.Store };

    // Only what is known of the store tells what a crash finds.
    ghost recovers = { λ office asked s. ⊥ };

    fn apply(&mut self, alloc: Global, command: Command) -> Result<Reply, Busy> {
        Office::apply(self, alloc, &command)
    }

    fn ask(&mut self, alloc: Global, query: Query) -> Result<Answer, Busy> {
        Office::ask(self, alloc, query)
    }
}
