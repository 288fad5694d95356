//! Making a new office.

ghost use Rattle.std.specs.Prelude.{◌≡◌};
ghost use Rattle.sqlite.specs.Held.{state};
ghost use Rattle.office_tables.specs.Schema.{no_schema};
ghost use Rattle.office.specs.NewOffice.{AwaitsTables, Founds, MakesTables};
ghost use Rattle.office.specs.Transactions.{IsBetweenTransactions};

use crate::transactions::keep;
use catalogue_statements::OfficeRow;
use catalogue_store::{Places, create};
use desk_store::create_desk;
use office_tables::{StoreFault, begin, roll_back};
use sqlite::{Alter, Connection};

/// Makes the tables of a new office inside the transaction. There must be no tables yet.
fn make_tables<P: Places, S: Alter>(
    conn: &mut Connection<S>,
    row: &OfficeRow,
) -> Result<(), StoreFault>
    requires blank { AwaitsTables (state S.Store conn.old) }
    ensures { MakesTables P.represents P.version S.Store conn.old conn.new row.now result }
{
    create_desk(conn)?;
    create::<P, S>(conn, row)
}

/// Makes a new office in one transaction. There must be no tables yet. If it fails, nothing is changed. A crash finds
/// what was there before, or the complete office.
pub(crate) fn found<P: Places, S: Alter>(
    conn: &mut Connection<S>,
    row: &OfficeRow,
) -> Result<(), StoreFault>
    requires blank { (state S.Store conn.old).now.schema ≡ no_schema }
    requires between { IsBetweenTransactions (state S.Store conn.old) }
    ensures { Founds P.represents P.version S.Store conn.old conn.new row.now result }
{
    // Outside a transaction a connection that is open shows what was committed.
    let _ = conn.is_autocommit();
    begin(conn)?;
    if let Err(fault) = make_tables::<P, S>(conn, row) {
        roll_back(conn);
        return Err(fault);
    }
    keep(conn)
}
