//! How the transaction of a command ends.

ghost use Rattle.office.specs.Transactions.{Commits, Settles};

use office_core::Reply;
use office_tables::{Closed, StoreFault, Versioned, commit, roll_back};
use sqlite::{Alter, Connection};

/// Commits what was done. If that fails, it is rolled back.
pub(crate) fn keep<S: Alter>(conn: &mut Connection<S>) -> Result<(), StoreFault>
    ensures { Commits S.Store conn.old conn.new result }
{
    if let Err(fault) = commit(conn) {
        roll_back(conn);
        return Err(fault);
    }
    Ok(())
}

/// Commits what was done on the tables that were lent. If that fails, it is rolled back.
fn keep_lent<P: Versioned, S: Alter>(closed: &mut Closed<P, S>) -> Result<(), StoreFault>
    ensures { Commits S.Store closed.old closed.new result }
{
    if let Err(fault) = closed.commit() {
        closed.roll_back();
        return Err(fault);
    }
    Ok(())
}

/// Ends the transaction: commits what an accepted command did, and rolls back after a refusal or a fault. Returns the
/// outcome; or, if the commit fails, its fault, and then all is rolled back.
pub(crate) fn settle<P: Versioned, S: Alter>(
    closed: &mut Closed<P, S>,
    outcome: Result<Reply, StoreFault>,
) -> Result<Reply, StoreFault>
    ensures { Settles S.Store closed.old closed.new outcome result }
{
    let reply = match outcome {
        Ok(reply) => reply,
        Err(fault) => {
            closed.roll_back();
            return Err(fault);
        }
    };
    if reply.done.is_err() {
        closed.roll_back();
        return Ok(reply);
    }
    keep_lent(closed)?;
    Ok(reply)
}
