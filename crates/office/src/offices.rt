//! An office over its tables.

ghost use Rattle.std.specs.Prelude.{◌≡◌, false, Err, IfErr, IfOk, IsErr, IsOk, IsTrue, OnErr};
ghost use Rattle.sqlite.specs.Held.{state};
ghost use Rattle.sqlite.specs.State.{HasCleanDisk, Survives};
ghost use Rattle.office_core.specs.Json.{reply_text};
ghost use Rattle.office_core.specs.Queries.{answer};
ghost use Rattle.office_core.specs.Rules.{step};
ghost use Rattle.office_core.specs.SoundOffice.{IsSoundOffice};
ghost use Rattle.office_core.specs.State.{State};
ghost use Rattle.adoption.specs.OrderedTables.{StandInOrder};
ghost use Rattle.office_tables.specs.Faults.{IsUnlimited};
ghost use Rattle.office_tables.specs.Schema.{no_schema, schema};
ghost use Rattle.office.specs.Adoption.{HasAdoptCause, IsAdopted, state_in};
ghost use Rattle.office.specs.OfficeCall.{HasBusyCause, MayFind, TakesStep};
ghost use Rattle.office.specs.InitialSettings.{founded};
ghost use Rattle.office.specs.NewOffice.{HasOpenCause};
ghost use Rattle.office.specs.IdleOffice.{IsAsBefore, IsAtRest, IsIn, has_clean_disk, is_shown, is_still_open};
ghost use Rattle.office.specs.Runs.{IsCall, question_call, command_call};
ghost use Rattle.refinement.specs.Representation.{RepresentsState};

use crate::commands::apply_keeping;
use crate::faults::{OpenFault, busy, fault_for};
use crate::first_marks::read_ahead;
use crate::inspection::{confirm_open, look_over};
use crate::names::names_days_and_texts;
use crate::new_office::found;
use crate::queries::ask_in;
use crate::settings::Settings;
use catalogue_store::Places;
use desk_store::is_blank;
use integrity_checks::CheckedPlaces;
use known_forest::KnownForest;
use office_core::{Answer, Busy, Command, Query, Reply};
use office_tables::Closed;
use sqlite::{Alter, Connection};
use std::alloc::Global;
use std::marker::Model;

/// An office over its tables, which stores the places of its units as `P` does. Between its calls no transaction is
/// open, and the connection has the tables of an office, as they were committed. From the opening on, or once a question
/// or a command needed them, the marks of all units are kept in memory: a status and a closure change them, and another
/// command that changes the catalogue lets them go.
pub struct Office<P: Places, S: Alter> {
    closed: Closed<P, S>,
    kept: Option<KnownForest>,
    /// It is known that the tables are a sound office's. Otherwise a status and a closure let the marks go, too.
    is_sound: bool,
}

impl<P: Places, S: Alter> Model for Office<P, S> {
    ghost use Rattle.sqlite.specs.Held.{Held, held_code, state};
    ghost use Rattle.office.specs.IdleOffice.{IsOffice};
    ghost use Rattle.office.specs.KeptMarks.{AreSoundIf, AreKept};

    ghost Value = { Held S };

    ghost coded = { held_code S.code };

    ghost view = { λ o. o.closed };

    ghost invariant = { λ o. IsOffice P.version (state S.Store o.closed)
        × AreKept P.represents P.version (state S.Store o.closed) o.kept
        × AreSoundIf o.is_sound P.represents P.version (state S.Store o.closed) };
}

impl<P: Places, S: Alter> Office<P, S> {
    /// Makes a new office in a store without tables. If there are tables already, the fault is `Schema`. On a fault the
    /// connection is given back, with its tables unchanged. A crash finds what was there before, or the complete
    /// office.
    pub fn create(
        conn: Connection<S>,
        settings: Settings,
    ) -> Result<Office<P, S>, (OpenFault, Connection<S>)>
        requires outside { HasCleanDisk (state S.Store conn) → (state S.Store conn).in_transaction ≡ false }
        requires unlimited { IsUnlimited (state S.Store conn) }
        ensures sound { IsSoundOffice (founded settings) }
        ensures represents { IfOk result (λ office. HasCleanDisk (state S.Store office)
            → IsIn P.represents P.version (founded settings) (state S.Store office)) }
        ensures kept { IfOk result (λ office. HasCleanDisk (state S.Store office)
            → IsTrue (state S.Store office).is_open) }
        ensures there { ((state S.Store conn).now.schema ≡ no_schema → ⊥)
            → result ≡ Err (OpenFault.Schema, conn) }
        ensures back { IfErr result (λ e. HasCleanDisk (state S.Store e.1)
            → IsAsBefore (state S.Store conn) (state S.Store e.1)) }
        ensures cause { (state S.Store conn).now.schema ≡ no_schema
            → IfErr result (λ e. HasCleanDisk (state S.Store e.1)
            → HasOpenCause (state S.Store conn) (state S.Store e.1) e.0) }
        ensures crash { IfOk result (λ office. Survives (state S.Store conn) (state S.Store office)
            (λ db. RepresentsState P.represents P.version (record { schema = schema P.version; trees = db })
            (founded settings))) }
        ensures crash_back { IfErr result (λ e. Survives (state S.Store conn) (state S.Store e.1)
            (λ db. RepresentsState P.represents P.version (record { schema = schema P.version; trees = db })
            (founded settings))) }
    {
        let mut conn = conn;
        let row = settings.into_row();
        // Outside a transaction a connection that is open shows what was committed.
        let _ = conn.is_autocommit();
        if !is_blank(&conn) {
            return Err((OpenFault::Schema, conn));
        }
        match found::<P, S>(&mut conn, &row) {
            Ok(()) => Ok(Office {
                closed: Closed::of(conn),
                kept: None,
                is_sound: false,
            }),
            Err(fault) => Err((OpenFault::from(fault), conn)),
        }
    }

    /// Carries out a command. An accepted command was committed: the connection is open, and its tables are as the disk
    /// has them. A refusal changes nothing, and neither does a busy office. A crash finds what was committed before, or
    /// the state after the command. If a failure of the disk had shut the connection before, the office stays busy for
    /// ever, except that malformed names are refused before any statement.
    pub fn apply(&mut self, alloc: Global, command: &Command) -> Result<Reply, Busy>
        ensures steps { HasCleanDisk (state S.Store self.new)
            → (s : State) → IsSoundOffice s → IsIn P.represents P.version s (state S.Store self.old)
            → IfOk result (λ reply. TakesStep P.represents P.version s command.now reply.done
            (state S.Store self.new)) }
        ensures sound { (s : State) → IsSoundOffice s → IsSoundOffice (step s command.now).0 }
        ensures was_open { HasCleanDisk (state S.Store self.new)
            → IsTrue (state S.Store self.new).is_open → IsTrue (state S.Store self.old).is_open }
        ensures kept { HasCleanDisk (state S.Store self.new)
            → IfOk result (λ reply. IsOk reply.done → IsTrue (state S.Store self.new).is_open) }
        ensures bytes { IfOk result (λ reply. reply.json ≡ reply_text reply.done) }
        ensures refused { HasCleanDisk (state S.Store self.new) → IfOk result (λ reply. IsErr reply.done
            → IsAsBefore (state S.Store self.old) (state S.Store self.new)) }
        ensures busy { HasCleanDisk (state S.Store self.new)
            → OnErr result (IsAsBefore (state S.Store self.old) (state S.Store self.new)) }
        ensures cause { HasCleanDisk (state S.Store self.new)
            → (s : State) → IsSoundOffice s → IsIn P.represents P.version s (state S.Store self.old)
            → IfErr result (HasBusyCause (state S.Store self.old) (state S.Store self.new)) }
        ensures rested { HasCleanDisk (state S.Store self.old) → IsAtRest P.version (state S.Store self.old) }
        ensures crash { Survives (state S.Store self.old) (state S.Store self.new)
            (MayFind P.represents P.version command.now (state S.Store self.old)) }
        ensures call { IsCall (is_shown S.Store P.represents P.version) (has_clean_disk S.Store) (is_still_open S.Store)
            self.old self.new (command_call command.now result) }
    {
        names_days_and_texts(command);
        match apply_keeping(
            alloc,
            &mut self.closed,
            &mut self.kept,
            self.is_sound,
            command,
        ) {
            Ok(reply) => Ok(reply),
            Err(fault) => Err(busy(fault)),
        }
    }

    /// Answers a question. It changes nothing, whatever the result.
    pub fn ask(&mut self, alloc: Global, query: Query) -> Result<Answer, Busy>
        ensures answers { HasCleanDisk (state S.Store self.new)
            → (s : State) → IsSoundOffice s → IsIn P.represents P.version s (state S.Store self.old)
            → IfOk result (λ told. told ≡ answer s query) }
        ensures same { HasCleanDisk (state S.Store self.new)
            → IsAsBefore (state S.Store self.old) (state S.Store self.new) }
        ensures cause { HasCleanDisk (state S.Store self.new)
            → (s : State) → IsSoundOffice s → IsIn P.represents P.version s (state S.Store self.old)
            → IfErr result (HasBusyCause (state S.Store self.old) (state S.Store self.new)) }
        ensures rested { HasCleanDisk (state S.Store self.old) → IsAtRest P.version (state S.Store self.old) }
        ensures crash { Survives (state S.Store self.old) (state S.Store self.new) (λ _. ⊥) }
        ensures call { IsCall (is_shown S.Store P.represents P.version) (has_clean_disk S.Store) (is_still_open S.Store)
            self.old self.new (question_call query result) }
    {
        match ask_in(alloc, &mut self.closed, &mut self.kept, query) {
            Ok(answer) => Ok(answer),
            Err(fault) => Err(busy(fault)),
        }
    }

    /// Gives the connection back. No transaction is open, and no limit is set on the steps of a statement.
    pub fn into_connection(self) -> Connection<S>
        ensures same { result ≡ self }
        ensures ended { HasCleanDisk (state S.Store result) → (state S.Store result).in_transaction ≡ false }
        ensures unlimited { IsUnlimited (state S.Store result) }
    {
        let Office {
            closed,
            kept: _,
            is_sound: _,
        } = self;
        closed.into_connection()
    }
}

impl<P: CheckedPlaces, S: Alter> Office<P, S> {
    /// Opens an office over tables of any origin, if they are a sound office's; otherwise the connection is given back
    /// with the fault. The tables are unchanged in either case. The office's connection is open. If the rows stand in
    /// order, with ascending whole numbers, it is in the state that they describe, and that is sound.
    pub fn adopt(
        alloc: Global,
        conn: Connection<S>,
    ) -> Result<Office<P, S>, (OpenFault, Connection<S>)>
        requires outside { HasCleanDisk (state S.Store conn) → (state S.Store conn).in_transaction ≡ false }
        requires unlimited { IsUnlimited (state S.Store conn) }
        ensures opens { IfOk result (λ office. HasCleanDisk (state S.Store office)
            → IsAdopted P.version (state S.Store conn) (state S.Store office)) }
        ensures sound { IfOk result (λ office. HasCleanDisk (state S.Store office)
            → IsTrue (state S.Store office).is_open → StandInOrder (state S.Store conn).now
            → IsSoundOffice (state_in P.version (state S.Store conn).now.trees)) }
        ensures represents { IfOk result (λ office. HasCleanDisk (state S.Store office)
            → StandInOrder (state S.Store conn).now
            → IsIn P.represents P.version (state_in P.version (state S.Store conn).now.trees) (state S.Store office)) }
        ensures kept { IfOk result (λ office. HasCleanDisk (state S.Store office)
            → IsTrue (state S.Store office).is_open) }
        ensures back { IfErr result (λ e. HasCleanDisk (state S.Store e.1)
            → IsAsBefore (state S.Store conn) (state S.Store e.1)) }
        ensures cause { IfErr result (λ e. HasCleanDisk (state S.Store e.1)
            → HasAdoptCause P.version (state S.Store conn) (state S.Store e.1) e.0) }
        ensures crash { IfOk result (λ office. Survives (state S.Store conn) (state S.Store office) (λ _. ⊥)) }
        ensures crash_back { IfErr result (λ e. Survives (state S.Store conn) (state S.Store e.1) (λ _. ⊥)) }
    {
        let mut conn = conn;
        // Outside a transaction a connection that is open shows what was committed.
        let _ = conn.is_autocommit();
        // The rows of an open connection keep the rules of its tables.
        let _ = conn.schema();
        let verdict = match look_over::<P, S>(alloc, &mut conn) {
            Ok(verdict) => verdict,
            Err(fault) => return Err((OpenFault::from(fault), conn)),
        };
        if let Some(fault) = fault_for(verdict) {
            return Err((fault, conn));
        }
        let (kept, mut conn) = read_ahead::<P, S>(alloc, conn);
        // Outside a transaction a connection that is open shows what was committed.
        let _ = conn.is_autocommit();
        match confirm_open(&mut conn) {
            Ok(()) => Ok(Office {
                closed: Closed::of(conn),
                kept,
                is_sound: false,
            }),
            Err(fault) => Err((OpenFault::from(fault), conn)),
        }
    }

    /// Notes that the tables are those of a sound office, as `create` and `adopt` tell. From then on a status and a
    /// closure change the marks in memory; otherwise these are read again.
    pub fn known_sound(self) -> Office<P, S>
        requires sound { HasCleanDisk (state S.Store self)
            → (s : State) × is_shown S.Store P.represents P.version self s }
        ensures same { result ≡ self }
    {
        let Office {
            closed,
            kept,
            is_sound: _,
        } = self;
        Office {
            closed,
            kept,
            is_sound: true,
        }
    }
}
