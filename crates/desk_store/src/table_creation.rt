//! Creating the desk's tables.

ghost use Rattle.std.specs.Prelude.{◌≡◌, [], Err, OnOk, OnErr, IfErr};
ghost use Rattle.sqlite.specs.Held.{state};
ghost use Rattle.sqlite.specs.Effect.{Database};
ghost use Rattle.sqlite.specs.State.{HasCleanDisk};
ghost use Rattle.office_tables.specs.Creation.{IsMaking};
ghost use Rattle.office_tables.specs.Faults.{HasCause};
ghost use Rattle.office_tables.specs.Schema.{no_schema, desk_schema};
ghost use Rattle.office_tables.specs.Step.{Continues, IsAborted};
ghost use Rattle.desk_store.specs.TableCreation.{Makes, reader_schema, order_schema, run_schema};

use crate::blank::is_blank;
use office_tables::{StoreFault, create_table};
use sqlite::{Alter, Connection};

/// Creates the tables of the readers and of the taken seats.
fn create_readers<S: Alter>(conn: &mut Connection<S>) -> Result<(), StoreFault>
    ensures { Makes S.Store no_schema reader_schema conn.old conn.new result }
{
    create_table(
        conn,
        "CREATE TABLE reader (ticket INTEGER PRIMARY KEY, name TEXT NOT NULL, until INTEGER NOT NULL) STRICT",
    )?;
    create_table(
        conn,
        "CREATE TABLE seat (seat INTEGER PRIMARY KEY, ticket INTEGER NOT NULL, UNIQUE (ticket)) STRICT",
    )
}

/// Creates the table of the orders.
fn create_orders<S: Alter>(conn: &mut Connection<S>) -> Result<(), StoreFault>
    ensures { Makes S.Store reader_schema order_schema conn.old conn.new result }
{
    create_table(
        conn,
        "CREATE TABLE orders (id INTEGER PRIMARY KEY, ticket INTEGER NOT NULL, container INTEGER NOT NULL, day INTEGER NOT NULL, state INTEGER NOT NULL, UNIQUE (state, container, id, ticket), UNIQUE (ticket, day, id), UNIQUE (ticket, state, id)) STRICT",
    )
}

/// Creates the tables of the containers that are not on the shelf, and of the runs.
fn create_runs<S: Alter>(conn: &mut Connection<S>) -> Result<(), StoreFault>
    ensures { Makes S.Store order_schema run_schema conn.old conn.new result }
{
    create_table(
        conn,
        "CREATE TABLE holding (container INTEGER PRIMARY KEY, held_by INTEGER, place INTEGER NOT NULL) STRICT",
    )?;
    create_table(
        conn,
        "CREATE TABLE run (id INTEGER PRIMARY KEY, day INTEGER NOT NULL) STRICT",
    )?;
    create_table(
        conn,
        "CREATE TABLE run_line (run INTEGER NOT NULL, container INTEGER NOT NULL, order_no INTEGER NOT NULL, ticket INTEGER NOT NULL, PRIMARY KEY (run, container)) STRICT",
    )
}

/// Creates the table of the permits.
fn create_permits<S: Alter>(conn: &mut Connection<S>) -> Result<(), StoreFault>
    ensures { Makes S.Store run_schema desk_schema conn.old conn.new result }
{
    create_table(
        conn,
        "CREATE TABLE permit (ticket INTEGER NOT NULL, unit INTEGER NOT NULL REFERENCES unit ON DELETE CASCADE, until INTEGER NOT NULL, PRIMARY KEY (ticket, unit), UNIQUE (unit, ticket)) STRICT",
    )
}

/// Creates the desk's tables in a store that has no tables.
fn make_desk<S: Alter>(conn: &mut Connection<S>) -> Result<(), StoreFault>
    ensures { Makes S.Store no_schema desk_schema conn.old conn.new result }
{
    create_readers(conn)?;
    create_orders(conn)?;
    create_runs(conn)?;
    create_permits(conn)
}

/// Creates the desk's tables, with no rows, in a store that is still empty; a transaction must be open. Any other store
/// is left unchanged, and the call fails with `StoreFault::Schema`. The desk's tables must be created before the
/// catalogue's.
pub fn create_desk<S: Alter>(conn: &mut Connection<S>) -> Result<(), StoreFault>
    ensures there { ((state S.Store conn.old).now.schema ≡ no_schema → ⊥)
        → (result ≡ Err StoreFault.Schema) × (conn.new ≡ conn.old) }
    ensures made { (start : Database) → IsMaking [] no_schema start (state S.Store conn.old)
        → OnOk result (Continues (state S.Store conn.old) (state S.Store conn.new) × IsMaking [] desk_schema start
        (state S.Store conn.new)) }
    ensures faults { (start : Database) → IsMaking [] no_schema start (state S.Store conn.old)
        → HasCleanDisk (state S.Store conn.new)
        → IfErr result (HasCause (state S.Store conn.old) (state S.Store conn.new)) }
    ensures aborts { (start : Database) → IsMaking [] no_schema start (state S.Store conn.old)
        → OnErr result (IsAborted (state S.Store conn.old) (state S.Store conn.new)) }
{
    if !is_blank(conn) {
        return Err(StoreFault::Schema);
    }
    make_desk(conn)
}
