//! Sessions with an office over streams.
ghost use Rattle.std.specs.Prelude.{◌≡◌, IfErr, OnOk};
ghost use Rattle.http_desk.specs.Exchanges.{StaysFailed, Talks};
ghost use Rattle.program.specs.CommandEffects.{EndsWell, TrialDone, TrialFails, ended_by};
ghost use Rattle.program.specs.Streams.{AgreesWithCalls};

use crate::faults::{Break, Fault};
use crate::stores::make_trial_office;
use http_desk::session::talk;
use http_desk::session_end::Ended;
use http_desk::streams::{Sink, Source};
use office::{Machine, Settings};
use std::alloc::Global;
use std::io::{Read, Write};

/// The result of a session: a fault if it broke off.
fn after(ended: Ended) -> Result<(), Fault>
    ensures well { OnOk result (EndsWell ended) }
    ensures broken { IfErr result (λ f. (broken : Break) × (f ≡ Fault.Session broken) × (ended ≡ ended_by broken)) }
{
    match ended {
        Ended::End | Ended::Closed => Ok(()),
        Ended::Cut => Err(Fault::Session(Break::Cut)),
        Ended::ReadFault => Err(Fault::Session(Break::Read)),
        Ended::WriteFault => Err(Fault::Session(Break::Write)),
        Ended::Bound => Err(Fault::Session(Break::Bound)),
    }
}

/// Answers the requests of one session on an office. If the session breaks off, that is the fault. It does not if its
/// input ends between messages, or if it is closed after an answer.
pub fn talk_with<M: Machine, R: Read, W: Write>(
    alloc: Global,
    office: &mut M,
    reader: &mut Source<'_, R>,
    out: &mut Sink<'_, W>,
) -> Result<(), Fault>
    ensures done { OnOk result ((end : Ended) × EndsWell end
        × AgreesWithCalls reader.old reader.new out.old out.new end
        × Talks M.represents M.is_intact M.is_open M.recovers reader.old.bytes reader.new.bytes
        out.old.bytes out.new.bytes office.old end office.new) }
    ensures broken { IfErr result (λ f. (broken : Break) × (f ≡ Fault.Session broken)
        × AgreesWithCalls reader.old reader.new out.old out.new (ended_by broken)
        × Talks M.represents M.is_intact M.is_open M.recovers reader.old.bytes reader.new.bytes
        out.old.bytes out.new.bytes office.old (ended_by broken) office.new) }
    ensures store { StaysFailed M.is_intact M.is_open office.old office.new }
{
    after(talk(alloc, reader, out, office))
}

/// Answers the requests of one session on a new office in memory, which is then discarded. If the session breaks off,
/// that is the fault. If there is no memory for an office, nothing is read or written.
pub fn try_office<R: Read, W: Write>(
    alloc: Global,
    settings: Settings,
    reader: &mut Source<'_, R>,
    out: &mut Sink<'_, W>,
) -> Result<(), Fault>
    ensures done { OnOk result (TrialDone settings reader.old reader.new
        out.old out.new) }
    ensures fault { IfErr result (TrialFails settings reader.old reader.new
        out.old out.new) }
{
    let mut office = make_trial_office(alloc, settings)?;
    let ended = talk(alloc, reader, out, &mut office);
    let _ = office.into_connection();
    after(ended)
}
