//! The beginning and the end of a transaction. The calls on the tables come in between.

ghost use Rattle.std.specs.Prelude.{◌≡◌, true, false, OnOk, OnErr, IfErr, IsTrue};
ghost use Rattle.sqlite.specs.Held.{state};
ghost use Rattle.sqlite.specs.State.{HasCleanDisk, Shows, Survives};
ghost use Rattle.office_tables.specs.Faults.{HasOuterCause};
ghost use Rattle.office_tables.specs.Step.{IsBack};
ghost use Rattle.office_tables.specs.Transactions.{Committed, IsStopped};

use crate::fault::StoreFault;
use sqlite::{Alter, Connection};

/// Begins a transaction. Fails if one is already open; if none is, it fails only for want of memory or because of the
/// disk. After a fault nothing was done, or everything since the last commit was rolled back.
pub fn begin<S: Alter>(conn: &mut Connection<S>) -> Result<(), StoreFault>
    ensures outside { HasCleanDisk (state S.Store conn.new)
        → OnOk result ((state S.Store conn.old).in_transaction ≡ false) }
    ensures begun { HasCleanDisk (state S.Store conn.new)
        → OnOk result (Shows (state S.Store conn.old) (state S.Store conn.new) (state S.Store conn.old).now
        (state S.Store conn.old).committed true) }
    ensures stopped { HasCleanDisk (state S.Store conn.new)
        → OnErr result (IsStopped (state S.Store conn.old) (state S.Store conn.new)) }
    ensures faults { HasCleanDisk (state S.Store conn.new) → (state S.Store conn.old).in_transaction ≡ false
        → IfErr result (HasOuterCause (state S.Store conn.old) (state S.Store conn.new)) }
    ensures crash { Survives (state S.Store conn.old) (state S.Store conn.new) (λ _. ⊥) }
{
    conn.execute("BEGIN", &[])?;
    Ok(())
}

/// Commits the transaction that is open, and ends it. Fails if none is open; if one is, it fails only for want of
/// memory or because of the disk. After a fault nothing was done, or everything since the last commit was rolled back.
/// A crash finds what was committed before, or all of it.
pub fn commit<S: Alter>(conn: &mut Connection<S>) -> Result<(), StoreFault>
    ensures inside { HasCleanDisk (state S.Store conn.new)
        → OnOk result (IsTrue (state S.Store conn.old).in_transaction) }
    ensures committed { HasCleanDisk (state S.Store conn.new)
        → OnOk result (Committed (state S.Store conn.old) (state S.Store conn.new)) }
    ensures stopped { HasCleanDisk (state S.Store conn.new)
        → OnErr result (IsStopped (state S.Store conn.old) (state S.Store conn.new)) }
    ensures faults { HasCleanDisk (state S.Store conn.new) → IsTrue (state S.Store conn.old).in_transaction
        → IfErr result (HasOuterCause (state S.Store conn.old) (state S.Store conn.new)) }
    ensures crash { Survives (state S.Store conn.old) (state S.Store conn.new)
        (λ db. db ≡ (state S.Store conn.old).now.trees) }
{
    conn.execute("COMMIT", &[])?;
    Ok(())
}

/// Rolls the transaction back, if one is open, and ignores a failure. Afterwards none is open, and the database is as
/// the last commit left it, or the store is shut.
pub fn roll_back<S: Alter>(conn: &mut Connection<S>)
    ensures back { HasCleanDisk (state S.Store conn.new) → IsTrue (state S.Store conn.old).in_transaction
        → IsBack (state S.Store conn.old) (state S.Store conn.new) }
    ensures nothing { HasCleanDisk (state S.Store conn.new) → (state S.Store conn.old).in_transaction ≡ false
        → IsStopped (state S.Store conn.old) (state S.Store conn.new) }
    ensures crash { Survives (state S.Store conn.old) (state S.Store conn.new) (λ _. ⊥) }
{
    let _ = conn.execute("ROLLBACK", &[]);
}
