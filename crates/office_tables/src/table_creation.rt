//! Makes one table or index, and the catalogue's tables except the table of places.

ghost use Rattle.std.specs.Prelude.{List, OnOk, OnErr, IfErr};
ghost use Rattle.sqlite.specs.State.{HasCleanDisk};
ghost use Rattle.sqlite.specs.Held.{state};
ghost use Rattle.sqlite.specs.Schema.{Schema};
ghost use Rattle.sqlite.specs.Table.{Table};
ghost use Rattle.sqlite.specs.Effect.{Database};
ghost use Rattle.office_tables.specs.Creation.{DefinesTable, DefinesIndex, IsMaking, catalogue_schema, unit_schema};
ghost use Rattle.office_tables.specs.Faults.{HasCause, BlamesDisk};
ghost use Rattle.office_tables.specs.Schema.{desk_schema, desk_tables};
ghost use Rattle.office_tables.specs.Step.{Continues, IsAborted};

use crate::fault::StoreFault;
use sqlite::{Alter, Connection};

/// Makes the table that the text defines, with no rows, after those that are there. The text must be one whole CREATE
/// TABLE statement without parameters that the tables made so far allow (`DefinesTable`), and a transaction must be
/// open. It then fails only for want of memory or because of the disk.
pub fn create_table<S: Alter>(conn: &mut Connection<S>, text: &str) -> Result<(), StoreFault>
    ensures made { (there : List Table) (start : Database) (before after : Schema)
        → IsMaking there before start (state S.Store conn.old) → DefinesTable there before text.now after
        → OnOk result (Continues (state S.Store conn.old) (state S.Store conn.new) × IsMaking there after start
        (state S.Store conn.new)) }
    ensures disk { (there : List Table) (start : Database) (before after : Schema)
        → IsMaking there before start (state S.Store conn.old) → DefinesTable there before text.now after
        → HasCleanDisk (state S.Store conn.new)
        → IfErr result (BlamesDisk (state S.Store conn.old) (state S.Store conn.new)) }
    ensures faults { (there : List Table) (start : Database) (before after : Schema)
        → IsMaking there before start (state S.Store conn.old) → DefinesTable there before text.now after
        → HasCleanDisk (state S.Store conn.new)
        → IfErr result (HasCause (state S.Store conn.old) (state S.Store conn.new)) }
    ensures aborts { (there : List Table) (start : Database) (before after : Schema)
        → IsMaking there before start (state S.Store conn.old) → DefinesTable there before text.now after
        → OnErr result (IsAborted (state S.Store conn.old) (state S.Store conn.new)) }
{
    conn.execute(text, &[])?;
    Ok(())
}

/// Makes the index that the text defines, on one of the tables that were made in this transaction, which have no rows.
/// The text must be one whole CREATE INDEX statement without parameters that the tables made so far allow
/// (`DefinesIndex`), and a transaction must be open. It then fails only for want of memory or because of the disk.
pub fn create_index<S: Alter>(conn: &mut Connection<S>, text: &str) -> Result<(), StoreFault>
    ensures made { (there : List Table) (start : Database) (before after : Schema)
        → IsMaking there before start (state S.Store conn.old) → DefinesIndex there before text.now after
        → OnOk result (Continues (state S.Store conn.old) (state S.Store conn.new) × IsMaking there after start
        (state S.Store conn.new)) }
    ensures disk { (there : List Table) (start : Database) (before after : Schema)
        → IsMaking there before start (state S.Store conn.old) → DefinesIndex there before text.now after
        → HasCleanDisk (state S.Store conn.new)
        → IfErr result (BlamesDisk (state S.Store conn.old) (state S.Store conn.new)) }
    ensures faults { (there : List Table) (start : Database) (before after : Schema)
        → IsMaking there before start (state S.Store conn.old) → DefinesIndex there before text.now after
        → HasCleanDisk (state S.Store conn.new)
        → IfErr result (HasCause (state S.Store conn.old) (state S.Store conn.new)) }
    ensures aborts { (there : List Table) (start : Database) (before after : Schema)
        → IsMaking there before start (state S.Store conn.old) → DefinesIndex there before text.now after
        → OnErr result (IsAborted (state S.Store conn.old) (state S.Store conn.new)) }
{
    // An open connection's rows keep the rules of its tables.
    let _ = conn.schema();
    conn.execute(text, &[])?;
    Ok(())
}

/// Makes the tables of the office, the units and their elements, with no rows. The desk's tables must be there and no
/// others, and a transaction must be open. It then fails only for want of memory or because of the disk.
pub fn create_units<S: Alter>(conn: &mut Connection<S>) -> Result<(), StoreFault>
    ensures made { (start : Database) → IsMaking desk_tables desk_schema start (state S.Store conn.old)
        → OnOk result (Continues (state S.Store conn.old) (state S.Store conn.new)
        × IsMaking desk_tables unit_schema start (state S.Store conn.new)) }
    ensures disk { (start : Database) → IsMaking desk_tables desk_schema start (state S.Store conn.old)
        → HasCleanDisk (state S.Store conn.new)
        → IfErr result (BlamesDisk (state S.Store conn.old) (state S.Store conn.new)) }
    ensures faults { (start : Database) → IsMaking desk_tables desk_schema start (state S.Store conn.old)
        → HasCleanDisk (state S.Store conn.new)
        → IfErr result (HasCause (state S.Store conn.old) (state S.Store conn.new)) }
    ensures aborts { (start : Database) → IsMaking desk_tables desk_schema start (state S.Store conn.old)
        → OnErr result (IsAborted (state S.Store conn.old) (state S.Store conn.new)) }
{
    create_table(
        conn,
        "CREATE TABLE office (one INTEGER PRIMARY KEY, version INTEGER NOT NULL, country TEXT NOT NULL, repo TEXT NOT NULL, seats INTEGER NOT NULL, daily INTEGER NOT NULL, hands INTEGER NOT NULL, run_size INTEGER NOT NULL, day INTEGER NOT NULL, next_unit INTEGER NOT NULL) STRICT",
    )?;
    create_table(
        conn,
        "CREATE TABLE unit (id INTEGER PRIMARY KEY, source TEXT NOT NULL, legacy TEXT NOT NULL, level TEXT NOT NULL, until INTEGER, draft INTEGER NOT NULL, UNIQUE (source, legacy)) STRICT",
    )?;
    create_table(
        conn,
        "CREATE TABLE element (unit INTEGER NOT NULL REFERENCES unit ON DELETE CASCADE, k INTEGER NOT NULL, value TEXT NOT NULL, PRIMARY KEY (unit, k)) STRICT",
    )
}

/// Makes the tables of the containers and of the units in them, with no rows. The desk's tables and those of
/// `create_units` must be there and no others, and a transaction must be open. It then fails only for want of memory or
/// because of the disk.
pub fn create_containers<S: Alter>(conn: &mut Connection<S>) -> Result<(), StoreFault>
    ensures made { (start : Database) → IsMaking desk_tables unit_schema start (state S.Store conn.old)
        → OnOk result (Continues (state S.Store conn.old) (state S.Store conn.new)
        × IsMaking desk_tables catalogue_schema start (state S.Store conn.new)) }
    ensures disk { (start : Database) → IsMaking desk_tables unit_schema start (state S.Store conn.old)
        → HasCleanDisk (state S.Store conn.new)
        → IfErr result (BlamesDisk (state S.Store conn.old) (state S.Store conn.new)) }
    ensures faults { (start : Database) → IsMaking desk_tables unit_schema start (state S.Store conn.old)
        → HasCleanDisk (state S.Store conn.new)
        → IfErr result (HasCause (state S.Store conn.old) (state S.Store conn.new)) }
    ensures aborts { (start : Database) → IsMaking desk_tables unit_schema start (state S.Store conn.old)
        → OnErr result (IsAborted (state S.Store conn.old) (state S.Store conn.new)) }
{
    create_table(
        conn,
        "CREATE TABLE container (id INTEGER PRIMARY KEY, name TEXT NOT NULL, location TEXT NOT NULL, kind TEXT NOT NULL, UNIQUE (name, location, kind)) STRICT",
    )?;
    create_table(
        conn,
        "CREATE TABLE housing (unit INTEGER NOT NULL REFERENCES unit ON DELETE CASCADE, ord INTEGER NOT NULL, container INTEGER NOT NULL, PRIMARY KEY (unit, ord), UNIQUE (container, unit)) STRICT",
    )
}
