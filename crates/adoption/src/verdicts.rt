//! Judging tables of any origin.

ghost use Rattle.std.specs.Prelude.{◌≡◌};
ghost use Rattle.sqlite.specs.Held.{state};
ghost use Rattle.state_encoding.specs.CellCauses.{cell_cause};
ghost use Rattle.office_tables.specs.Faults.{IsUnlimited};
ghost use Rattle.office_tables.specs.Step.{InTransaction};
ghost use Rattle.adoption.specs.Judgments.{HasGoodCatalogueTables, HasTransaction, Judges, ◌within◌tells◌};
ghost use Rattle.adoption.specs.Verdicts.{IsVerdict};
ghost use Rattle.adoption.specs.OrderedTables.{StandInOrder};

use crate::day_rules::breaks_day_rules;
use crate::own_row::{OwnRow, own_row};
use crate::own_tables::are_ours;
use crate::verdict::Verdict;
use crate::version::judge_version;
use core::mem::replace_with;
use integrity_checks::{CheckedPlaces, load_check, load_check_desk};
use office_tables::{StoreFault, Tables};
use sqlite::{Alter, Connection};
use std::alloc::Global;
use std::marker::PhantomData;

/// The least of the desk's causes and the rules of the day that holds, or none. Assumes that none of the catalogue's
/// causes holds.
#[tactic(auto, using(crate::proofs::JudgmentEnds::passes, crate::proofs::JudgmentEnds::as_judged))]
fn desk_cause<P: CheckedPlaces, S: Alter>(
    alloc: Global,
    tables: &mut Tables<P, S>,
    own: &OwnRow,
) -> Result<Option<u8>, StoreFault>
    ensures { Judges S.Store tables.old tables.new result
        within (λ s. HasGoodCatalogueTables P.version own.now s.now)
        tells λ s cause. HasGoodCatalogueTables P.version own.now s.now → cause ≡ cell_cause P.version s.now.trees }
{
    if let Some(defect) = load_check_desk(alloc, tables, &own.limits, own.today)? {
        return Ok(Some(defect.cause()));
    }
    if breaks_day_rules(alloc, tables, own)? {
        return Ok(Some(10));
    }
    Ok(None)
}

/// The least of the ten causes that holds for the rows, or none.
#[tactic(auto, using(crate::proofs::JudgmentEnds::passes))]
fn least_cause<P: CheckedPlaces, S: Alter>(
    alloc: Global,
    tables: &mut Tables<P, S>,
) -> Result<Option<u8>, StoreFault>
    ensures { Judges S.Store tables.old tables.new result
        within (λ s. StandInOrder s.now)
        tells λ s cause. StandInOrder s.now → cause ≡ cell_cause P.version s.now.trees }
{
    let Some(own) = own_row(tables)? else {
        return Ok(Some(1));
    };
    if let Some(defect) = load_check(alloc, tables, own.next_unit)? {
        return Ok(Some(defect.cause()));
    }
    desk_cause(alloc, tables, &own)
}

/// The same, for a connection whose tables are known to be ours. It is given back. The last of what is given only says
/// how places are stored.
fn cause_inside<P: CheckedPlaces, S: Alter>(
    conn: Connection<S>,
    given: (Global, PhantomData<P>),
) -> (Connection<S>, Result<Option<u8>, StoreFault>)
    requires inside { InTransaction P.version (state S.Store conn) }
    ensures { Judges S.Store conn result.0 result.1
        within (λ s. StandInOrder s.now)
        tells λ s cause. StandInOrder s.now → cause ≡ cell_cause P.version s.now.trees }
{
    let (alloc, _) = given;
    let mut tables: Tables<P, S> = Tables::inside(conn);
    let cause = least_cause(alloc, &mut tables);
    (tables.into_connection(), cause)
}

/// Judges what the tables are, inside a transaction, as those of an office of this version. Reads all of them, unless
/// the verdict is found before, and changes nothing. If their rows do not stand in order, with ascending whole numbers,
/// `Sound` and `Unsound` say only that the tables are this product's.
#[tactic(auto, using(crate::proofs::JudgmentEnds::passes, crate::proofs::JudgmentEnds::is_full))]
pub fn judge<P: CheckedPlaces, S: Alter>(
    alloc: Global,
    conn: &mut Connection<S>,
) -> Result<Verdict, StoreFault>
    requires inside { HasTransaction (state S.Store conn.old) }
    requires unlimited { IsUnlimited (state S.Store conn.old) }
    ensures { Judges S.Store conn.old conn.new result
        within (λ s. StandInOrder s.now) tells λ s. IsVerdict P.version s.now }
{
    if let Some(verdict) = judge_version::<P, S>(conn)? {
        return Ok(verdict);
    }
    if !are_ours::<P, S>(alloc, conn)? {
        return Ok(Verdict::OtherTables);
    }
    match replace_with(conn, (alloc, PhantomData), cause_inside::<P, S>)? {
        Some(cause) => Ok(Verdict::Unsound(cause)),
        None => Ok(Verdict::Sound),
    }
}
