//! The tables of an office: closed, or lent while a transaction is open.

ghost use Rattle.std.specs.Prelude.{◌≡◌, false, true, OnOk, OnErr, IfErr, IfOk, IsTrue};
ghost use Rattle.std.specs.Borrow.{sem};
ghost use Rattle.sqlite.specs.Held.{state};
ghost use Rattle.sqlite.specs.State.{HasCleanDisk, Shows, Survives};
ghost use Rattle.office_tables.specs.Faults.{HasOuterCause};
ghost use Rattle.office_tables.specs.Lending.{LendsBegun};
ghost use Rattle.office_tables.specs.Schema.{schema};
ghost use Rattle.office_tables.specs.Step.{AreTables, InTransaction};
ghost use Rattle.office_tables.specs.Transactions.{Committed, IsEnded, IsStopped};

use crate::fault::StoreFault;
use crate::transaction;
use crate::versions::Versioned;
use sqlite::{Alter, Connection};
use std::marker::{Model, PhantomData};

/// The tables of an office of the version that `P` has. They are lent once a transaction has begun. If a failed
/// statement has rolled it back, no further statement runs.
pub struct Tables<P: Versioned, S: Alter> {
    pub(crate) conn: Connection<S>,
    places: PhantomData<P>,
}

impl<P: Versioned, S: Alter> Model for Tables<P, S> {
    ghost use Rattle.sqlite.specs.Held.{Held, held_code, state};
    ghost use Rattle.office_tables.specs.Step.{AreTables};

    ghost Value = { Held S };

    ghost coded = { held_code S.code };

    ghost view = { λ t. t.conn };

    ghost invariant = { λ t. AreTables P.version (state S.Store t.conn) };
}

impl<P: Versioned, S: Alter> Tables<P, S> {
    /// The tables of this connection. While its disk is clean, it must have the tables of this version, and a
    /// transaction must be open.
    pub fn inside(conn: Connection<S>) -> Tables<P, S>
        requires { InTransaction P.version (state S.Store conn) }
        ensures { result ≡ conn }
    {
        Tables {
            conn,
            places: PhantomData,
        }
    }

    /// Gives the connection back. While its disk is clean and a transaction is open, it has the tables of this version.
    pub fn into_connection(self) -> Connection<S>
        ensures same { result ≡ self }
        ensures kept { AreTables P.version (state S.Store result) }
    {
        let Tables { conn, places: _ } = self;
        conn
    }
}

/// The same, before a transaction begins and after it ends.
pub struct Closed<P: Versioned, S: Alter> {
    tables: Tables<P, S>,
}

impl<P: Versioned, S: Alter> Model for Closed<P, S> {
    ghost use Rattle.sqlite.specs.Held.{Held, held_code};

    ghost Value = { Held S };

    ghost coded = { held_code S.code };

    ghost view = { λ c. c.tables };
}

impl<P: Versioned, S: Alter> Closed<P, S> {
    /// The tables of this connection. If its disk is clean and a transaction is open, they must be those of this
    /// version.
    pub fn of(conn: Connection<S>) -> Closed<P, S>
        requires { AreTables P.version (state S.Store conn) }
        ensures { result ≡ conn }
    {
        Closed {
            tables: Tables {
                conn,
                places: PhantomData,
            },
        }
    }

    /// Gives the connection back.
    pub fn into_connection(self) -> Connection<S>
        ensures { result ≡ self }
    {
        let Closed { tables } = self;
        let Tables { conn, places: _ } = tables;
        conn
    }

    /// Begins a transaction, and lends the tables, which must be those of this version. Fails if one is already open;
    /// if none is, it fails only for want of memory or because of the disk. After a fault nothing was done, or
    /// everything since the last commit was rolled back.
    pub fn begin(&mut self) -> Result<&mut Tables<P, S>, StoreFault>
        requires rests { HasCleanDisk (state S.Store self.old) → IsTrue (state S.Store self.old).is_open
            → (state S.Store self.old).now.schema ≡ schema P.version }
        ensures outside { IfOk result (λ tables. HasCleanDisk (state S.Store tables.now)
            → (state S.Store self.old).in_transaction ≡ false) }
        ensures begun { IfOk result (λ tables. HasCleanDisk (state S.Store tables.now)
            → Shows (state S.Store self.old) (state S.Store tables.now) (state S.Store self.old).now
            (state S.Store self.old).committed true) }
        ensures crash { IfOk result (λ tables. Survives (state S.Store self.old) (state S.Store tables.now)
            (λ _. ⊥)) }
        ensures* lends { sem 𝓛 (LendsBegun P.row S.row P.Versioned S.Store self.entry result) }
    {
        let tables = &mut self.tables;
        transaction::begin(&mut tables.conn)?;
        Ok(tables)
    }

    /// Commits what was done, and ends the transaction. Fails if none is open; if one is, it fails only for want of
    /// memory or because of the disk. After a fault nothing was done, or everything since the last commit was rolled
    /// back. A crash finds what was committed before, or all of it.
    pub fn commit(&mut self) -> Result<(), StoreFault>
        ensures inside { HasCleanDisk (state S.Store self.new)
            → OnOk result (IsTrue (state S.Store self.old).in_transaction) }
        ensures committed { HasCleanDisk (state S.Store self.new)
            → OnOk result (Committed (state S.Store self.old) (state S.Store self.new)) }
        ensures stopped { HasCleanDisk (state S.Store self.new)
            → OnErr result (IsStopped (state S.Store self.old) (state S.Store self.new)) }
        ensures faults { HasCleanDisk (state S.Store self.new) → IsTrue (state S.Store self.old).in_transaction
            → IfErr result (HasOuterCause (state S.Store self.old) (state S.Store self.new)) }
        ensures crash { Survives (state S.Store self.old) (state S.Store self.new)
            (λ db. db ≡ (state S.Store self.old).now.trees) }
    {
        let tables = &mut self.tables;
        transaction::commit(&mut tables.conn)
    }

    /// Rolls back what was done since the last commit, whether the transaction is still open or not. Afterwards none is
    /// open. A failure is ignored.
    pub fn roll_back(&mut self)
        ensures ended { HasCleanDisk (state S.Store self.new)
            → IsEnded (state S.Store self.old) (state S.Store self.new) }
        ensures crash { Survives (state S.Store self.old) (state S.Store self.new) (λ _. ⊥) }
    {
        let tables = &mut self.tables;
        transaction::roll_back(&mut tables.conn);
    }
}
