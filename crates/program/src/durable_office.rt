//! An office of which is known what a failure of the disk leaves.

use nested_sets::SpanPlaces;
use office::{Answer, Busy, Command, Machine, Office, Query, Reply};
use sqlite::{Alter, FileStore};
use sqlite_disk::Disk;
use std::alloc::Global;

/// A store of which a crash finds what was committed last, as long as the store is open.
pub trait Durable: Alter {
    ghost use Rattle.program.specs.KeptOffices.{KeepsCommits};

    ghost keeps: { KeepsCommits Self.Store };
}

impl<D: Disk> Durable for FileStore<D> {
    ghost use Rattle.sqlite_store.specs.Laws.{settled_at};

    ghost keeps = { λ store opened db may. settled_at store D.seen_may_stay db opened may };
}

/// An office over such a store, as sessions ask it.
pub struct DurableOffice<S: Durable> {
    pub office: Office<SpanPlaces, S>,
}

impl<S: Durable> Machine for DurableOffice<S> {
    ghost use Rattle.sqlite.specs.Held.{state};
    ghost use Rattle.sqlite.specs.State.{HasCleanDisk};
    ghost use Rattle.office_tables.specs.Versions.{Second};
    ghost use Rattle.nested_sets.specs.Representation.{RepresentsSpanRows};
    ghost use Rattle.office.specs.IdleOffice.{is_shown, is_still_open};
    ghost use Rattle.program.specs.KeptOffices.{IsRecovered};

    ghost represents = { λ it s. is_shown S.Store RepresentsSpanRows Second it.office s };

    ghost is_intact = { λ it. HasCleanDisk (state S.Store it.office) };

    ghost is_open = { λ it. is_still_open S.Store it.office };

    ghost recovers = { λ it asked s. IsRecovered S.Store it.office asked s };

    fn apply(&mut self, alloc: Global, command: Command) -> Result<Reply, Busy> {
        Office::apply(&mut self.office, alloc, &command)
    }

    fn ask(&mut self, alloc: Global, query: Query) -> Result<Answer, Busy> {
        Office::ask(&mut self.office, alloc, query)
    }
}
