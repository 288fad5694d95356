//! The version of tables.

ghost use Rattle.std.specs.Prelude.{◌≡◌};
ghost use Rattle.sqlite.specs.Held.{state};
ghost use Rattle.office_tables.specs.Faults.{IsUnlimited};
ghost use Rattle.adoption.specs.Judgments.{HasTransaction, Judges, ◌tells◌};
ghost use Rattle.adoption.specs.Verdicts.{IsVersionVerdict, verdict_of_version};
ghost use Rattle.adoption.specs.Versions.{AreVersions};

use crate::verdict::Verdict;
use catalogue_store::Places;
use office_tables::{NEWEST_VERSION, StoreFault};
use row_decoding::{cell, number_in};
use sqlite::{Alter, Connection, Row};

/// The rows of the table `office`, with their version only, or none if the table cannot be read.
fn versions<S: Alter>(conn: &mut Connection<S>) -> Result<Option<Vec<Row>>, StoreFault>
    requires inside { HasTransaction (state S.Store conn.old) }
    requires unlimited { IsUnlimited (state S.Store conn.old) }
    ensures { Judges S.Store conn.old conn.new result tells λ s. AreVersions s.now }
{
    match conn.query_all("SELECT version FROM office", &[]) {
        Ok(rows) => Ok(Some(rows)),
        Err(error) => match StoreFault::from(error) {
            StoreFault::Schema => Ok(None),
            fault => Err(fault),
        },
    }
}

/// The verdict on tables that have the version `told` and were expected to have `own`, if that is another of ours.
fn other_version(own: u64, told: Option<u64>) -> Option<Verdict>
    ensures { result ≡ verdict_of_version own told }
{
    let told = told?;
    if 1 <= told && told < own {
        Some(Verdict::OldVersion)
    } else if own < told && told <= NEWEST_VERSION {
        Some(Verdict::NewVersion)
    } else {
        None
    }
}

/// The verdict on the tables by their version: `OldVersion` or `NewVersion` if it is another of ours than was expected,
/// and `NoOffice` if the table `office` cannot be read or does not have exactly one row. None if the version is the
/// expected one, or none of ours.
#[tactic(auto, using(crate::proofs::JudgmentEnds::passes))]
pub(crate) fn judge_version<P: Places, S: Alter>(
    conn: &mut Connection<S>,
) -> Result<Option<Verdict>, StoreFault>
    requires inside { HasTransaction (state S.Store conn.old) }
    requires unlimited { IsUnlimited (state S.Store conn.old) }
    ensures { Judges S.Store conn.old conn.new result tells λ s. IsVersionVerdict P.version s.now }
{
    let Some(rows) = versions(conn)? else {
        return Ok(Some(Verdict::NoOffice));
    };
    if rows.len() != 1 {
        return Ok(Some(Verdict::NoOffice));
    }
    let told = number_in(cell(&rows[0], 0));
    Ok(other_version(P::number(), told))
}
