//! The marks of all units, read from the tables.

ghost use Rattle.std.specs.Prelude.{IfErr};
ghost use Rattle.sqlite.specs.Held.{state};
ghost use Rattle.sqlite.specs.State.{HasCleanDisk};
ghost use Rattle.catalogue_core.specs.Bounds.{IsKept};
ghost use Rattle.catalogue_core.specs.UnitMarks.{AreWalkMarks};
ghost use Rattle.catalogue_statements.specs.Representation.{Represents};
ghost use Rattle.office_tables.specs.Calls.{Answers};
ghost use Rattle.office_tables.specs.Faults.{BlamesDisk};
ghost use Rattle.office_tables.specs.Premises.{◌within◌gives◌};

use catalogue_store::{Places, branch_marks};
use known_forest::KnownForest;
use office_tables::{StoreFault, Tables};
use sqlite::Alter;
use std::alloc::Global;

/// No office has more units than this: their marks could not be numbered.
const MOST_MARKS: usize = 1 << 30;

/// Reads the marks of all units.
pub fn all_marks<P: Places, S: Alter>(
    alloc: Global,
    tables: &mut Tables<P, S>,
) -> Result<KnownForest, StoreFault>
    ensures answers { Answers S.Store (Represents P.represents P.version) tables.old tables.new result
        within IsKept gives λ _ c forest. AreWalkMarks c.forest forest }
    ensures disk { HasCleanDisk (state S.Store tables.new)
        → IfErr result (BlamesDisk (state S.Store tables.old) (state S.Store tables.new)) }
{
    let marks = branch_marks(alloc, tables, None)?;
    if marks.len() > MOST_MARKS {
        return Err(StoreFault::Schema);
    }
    Ok(KnownForest::new(marks)?)
}
