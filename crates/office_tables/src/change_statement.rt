//! One statement that changes rows.

ghost use Rattle.sqlite.specs.Held.{state};
ghost use Rattle.sqlite.specs.State.{HasCleanDisk, IsLive};
ghost use Rattle.sqlite.specs.Values.{bound};
ghost use Rattle.office_tables.specs.ChangeStatement.{IsOurs, Leaves, Ran};

use crate::fault::StoreFault;
use sqlite::types::ValueRef;
use sqlite::{Alter, Connection};

/// Runs one of our statements that change rows (INSERT, UPDATE or DELETE). While the disk is clean, a transaction over
/// our tables must be open. If it fails, every row is as it was, or the transaction was rolled back.
pub fn change<S: Alter>(
    conn: &mut Connection<S>,
    sql: &str,
    params: &[ValueRef<'_>],
) -> Result<(), StoreFault>
    requires { IsOurs sql.now (state S.Store conn.old) }
    ensures leaves { Leaves (state S.Store conn.old) (state S.Store conn.new) result }
    ensures ran { HasCleanDisk (state S.Store conn.new)
        → Ran sql.now (bound params.now) (state S.Store conn.old) (state S.Store conn.new) result }
    ensures live { IsLive (state S.Store conn.old) }
{
    // An open connection's rows keep the rules of its tables.
    let _ = conn.schema();
    conn.execute(sql, params)?;
    Ok(())
}
