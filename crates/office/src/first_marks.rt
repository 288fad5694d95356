//! The marks of all units, read when an office is opened, so that the first question need not.

ghost use Rattle.std.specs.Prelude.{IfOk, Some};
ghost use Rattle.sqlite.specs.Held.{state};
ghost use Rattle.sqlite.specs.State.{HasCleanDisk, Survives};
ghost use Rattle.office.specs.IdleOffice.{IsAsBefore, IsOffice};
ghost use Rattle.office.specs.KeptMarks.{AreKept};

use access::all_marks;
use catalogue_store::Places;
use known_forest::KnownForest;
use office_tables::{Closed, StoreFault};
use sqlite::{Alter, Connection};
use std::alloc::Global;

/// Reads the marks of all units in a transaction of its own, which is rolled back.
fn read_in<P: Places, S: Alter>(
    alloc: Global,
    closed: &mut Closed<P, S>,
) -> Result<KnownForest, StoreFault>
    requires { IsOffice P.version (state S.Store closed.old) }
    ensures office { IsOffice P.version (state S.Store closed.new) }
    ensures marks { IfOk result (λ forest. AreKept P.represents P.version (state S.Store closed.new) (Some forest)) }
    ensures same { HasCleanDisk (state S.Store closed.new)
        → IsAsBefore (state S.Store closed.old) (state S.Store closed.new) }
    ensures crash { Survives (state S.Store closed.old) (state S.Store closed.new) (λ _. ⊥) }
{
    let tables = closed.begin()?;
    let marks = all_marks(alloc, tables);
    closed.roll_back();
    marks
}

/// Reads the marks of all units in a transaction of its own, which is rolled back. If that fails, there are none, and a
/// question that needs them reads them.
pub(crate) fn read_ahead<P: Places, S: Alter>(
    alloc: Global,
    conn: Connection<S>,
) -> (Option<KnownForest>, Connection<S>)
    requires { IsOffice P.version (state S.Store conn) }
    ensures office { IsOffice P.version (state S.Store result.1) }
    ensures marks { AreKept P.represents P.version (state S.Store result.1) result.0 }
    ensures same { HasCleanDisk (state S.Store result.1) → IsAsBefore (state S.Store conn) (state S.Store result.1) }
    ensures crash { Survives (state S.Store conn) (state S.Store result.1) (λ _. ⊥) }
{
    let mut closed = Closed::<P, S>::of(conn);
    let kept = read_in(alloc, &mut closed).ok();
    (kept, closed.into_connection())
}
