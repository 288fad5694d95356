//! Judges tables of any origin.

ghost use Rattle.std.specs.Prelude.{IsTrue, OnOk};
ghost use Rattle.sqlite.specs.Held.{state};
ghost use Rattle.sqlite.specs.State.{HasCleanDisk};
ghost use Rattle.office.specs.Inspection.{ConfirmsOpen, Inspects};
ghost use Rattle.office.specs.Transactions.{IsBetweenTransactions};

use adoption::{Verdict, judge};
use integrity_checks::CheckedPlaces;
use office_tables::{StoreFault, begin, roll_back};
use sqlite::{Alter, Connection};
use std::alloc::Global;

/// Judges what the tables are, in a transaction that is rolled back.
fn judge_apart<P: CheckedPlaces, S: Alter>(
    alloc: Global,
    conn: &mut Connection<S>,
) -> Result<Verdict, StoreFault>
    requires { IsBetweenTransactions (state S.Store conn.old) }
    ensures { Inspects S.Store conn.old conn.new P.version result }
{
    // Outside a transaction a connection that is open shows what was committed.
    let _ = conn.is_autocommit();
    begin(conn)?;
    let verdict = judge::<P, S>(alloc, conn);
    roll_back(conn);
    verdict
}

/// Fails if a failure of the disk has shut the connection: no statement can be prepared on it then. It may also lack
/// memory. None is run.
pub(crate) fn confirm_open<S: Alter>(conn: &mut Connection<S>) -> Result<(), StoreFault>
    ensures { ConfirmsOpen S.Store conn.old conn.new result }
{
    conn.prepare("BEGIN")?;
    Ok(())
}

/// Judges what the tables are, in a transaction that is rolled back. If the call succeeds, the connection is still
/// open.
pub(crate) fn look_over<P: CheckedPlaces, S: Alter>(
    alloc: Global,
    conn: &mut Connection<S>,
) -> Result<Verdict, StoreFault>
    requires { IsBetweenTransactions (state S.Store conn.old) }
    ensures looks { Inspects S.Store conn.old conn.new P.version result }
    ensures kept { HasCleanDisk (state S.Store conn.new) → OnOk result (IsTrue (state S.Store conn.new).is_open) }
{
    let verdict = judge_apart::<P, S>(alloc, conn)?;
    // Outside a transaction a connection that is open shows what was committed.
    let _ = conn.is_autocommit();
    confirm_open(conn)?;
    Ok(verdict)
}
