//! Checks whether the tables of a store are those of a sound office.
ghost use Rattle.std.specs.Prelude.{◌≡◌, None, false, IfErr, IfNone, IfOk, IfSome, IsTrue, OnOk};
ghost use Rattle.sqlite.specs.Held.{state};
ghost use Rattle.sqlite.specs.State.{HasCleanDisk, Survives};
ghost use Rattle.sqlite.specs.WalFiles.{image_at};
ghost use Rattle.adoption.specs.Verdicts.{IsVerdict};
ghost use Rattle.adoption.specs.declared.verdict.Verdict.TheVariants as verdict;
ghost use Rattle.office_tables.specs.Faults.{IsUnlimited};
ghost use Rattle.office.specs.Adoption.{HasAdoptCause};
ghost use Rattle.office_tables.specs.Versions.{Second};
ghost use Rattle.program.specs.ClosedFiles.{WasJudgedAsFound};
ghost use Rattle.program.specs.CommandEffects.{JudgmentFails, JudgmentPrinted};
ghost use Rattle.program.specs.FailedOpenings.{CouldNotOpen};

use crate::faults::Fault;
use crate::files::{ClosedFiles, FailedOpeningFrom, Finding, close, find};
use crate::streams::write_whole;
use http_desk::streams::Sink;
use nested_sets::SpanPlaces;
use office::{Office, OpenFault};
use sqlite::{Alter, Connection, FileFrom, Start};
use sqlite_disk::Disk;
use std::alloc::Global;
use std::io::Write;

/// Returns why no office of version 2 can be opened on the store, or none if its tables are those of a sound office of
/// version 2. They are unchanged, unless a failure of the disk has shut the store. No transaction may be open, and the
/// connection must not limit the steps of a statement. It is given back, with no transaction open.
pub fn judge<S: Alter>(alloc: Global, conn: Connection<S>) -> (Option<OpenFault>, Connection<S>)
    requires outside { HasCleanDisk (state S.Store conn) → (state S.Store conn).in_transaction ≡ false }
    requires unlimited { IsUnlimited (state S.Store conn) }
    ensures sound { HasCleanDisk (state S.Store result.1)
        → IfNone result.0 (IsVerdict Second (state S.Store conn).now verdict.Sound) }
    ensures cause { HasCleanDisk (state S.Store result.1)
        → IfSome result.0 (HasAdoptCause Second (state S.Store conn) (state S.Store result.1)) }
    ensures same { HasCleanDisk (state S.Store result.1) → IsTrue (state S.Store result.1).is_open
        → (state S.Store result.1).now ≡ (state S.Store conn).now }
    ensures ended { HasCleanDisk (state S.Store result.1) → (state S.Store result.1).in_transaction ≡ false }
    ensures crash { Survives (state S.Store conn) (state S.Store result.1) (λ _. ⊥) }
{
    match Office::<SpanPlaces, S>::adopt(alloc, conn) {
        Ok(office) => (None, office.into_connection()),
        Err((fault, conn)) => (Some(fault), conn),
    }
}

/// Opens the store in a file, and closes it as it was found. Returns why no office of version 2 can be opened on its
/// tables, or none if they are those of a sound office of version 2, with the closed files. If the store cannot be
/// opened, the error has why.
pub fn judge_file<S: Start>(
    alloc: Global,
    finding: Finding<'_, S>,
) -> Result<(Option<OpenFault>, ClosedFiles<S>), FailedOpeningFrom<S>>
    ensures judged { IfOk result (λ r. WasJudgedAsFound ⟦<FileFrom<S> as Disk>⟧ (image_at S.Start) r.0 r.1) }
    ensures fails { IfErr result (CouldNotOpen ⟦<FileFrom<S> as Disk>⟧ (image_at S.Start)) }
{
    let conn = find(finding)?;
    let (judged, conn) = judge(alloc, conn);
    Ok((judged, close(conn)))
}

/// Prints the verdict `sound`, `old version` or `not sound`, the last with the number of its cause, and fails with
/// `NotSound` unless it is `sound`. If standard output fails, the fault is `File`, and a front of the line was printed.
/// If there is no memory for the line, it is `Memory`. After any other fault of an opening nothing is printed, and the
/// fault is `Memory` or `Store`.
pub fn tell_judgment<W: Write>(
    alloc: Global,
    judged: Option<OpenFault>,
    out: &mut Sink<'_, W>,
) -> Result<(), Fault>
    ensures done { OnOk result (JudgmentPrinted judged out.old out.new) }
    ensures fault { IfErr result (JudgmentFails judged out.old out.new) }
{
    match judged {
        None => {
            write_whole(out, b"sound\n")?;
            Ok(())
        }
        Some(OpenFault::OldVersion) => {
            write_whole(out, b"old version\n")?;
            Err(Fault::NotSound)
        }
        Some(OpenFault::Unsound(cause)) => {
            let line = format!(in alloc; "not sound {cause}\n")?;
            write_whole(out, line.as_bytes())?;
            Err(Fault::NotSound)
        }
        Some(fault) => Err(Fault::from(fault)),
    }
}
