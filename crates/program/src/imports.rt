//! Imports the descriptions of a file into an office.
ghost use Rattle.std.specs.Prelude.{◌≡◌, IfErr, IfOk, IsOk, IsTrue, OnErr, OnOk};
ghost use Rattle.sqlite.specs.Held.{state};
ghost use Rattle.sqlite.specs.State.{HasCleanDisk, Survives};
ghost use Rattle.office_core.specs.Json.{reply_text};
ghost use Rattle.office_core.specs.SoundOffice.{IsSoundOffice};
ghost use Rattle.office_core.specs.State.{State};
ghost use Rattle.office.specs.OfficeCall.{MayFind, TakesStep};
ghost use Rattle.office.specs.IdleOffice.{IsAsBefore, IsIn};
ghost use Rattle.program.specs.Busy.{IsBusyFor};
ghost use Rattle.program.specs.CommandEffects.{IsBusy, ReplyFails, ReplyPrinted};

use crate::faults::{Fault, refusal_fault};
use crate::streams::write_line;
use catalogue_store::Places;
use http_desk::streams::Sink;
use isad_core::{List, Text};
use office::{Command, Office, Reply};
use sqlite::Alter;
use std::alloc::Global;
use std::io::Write;

/// Imports a file into the office with one command, which is one step of the machine. A refusal is a reply; after an
/// accepted import the store is open. If the office is busy, the fault is `Memory` or `Store`, and its tables are
/// unchanged. If a failure of the disk shuts the store, a crash may find the office before or after the import.
pub fn take_in<P: Places, S: Alter>(
    alloc: Global,
    office: &mut Office<P, S>,
    source: Text,
    file: Vec<u8>,
) -> Result<Reply, Fault>
    ensures steps { HasCleanDisk (state S.Store office.new)
        → (s : State) → IsSoundOffice s → IsIn P.represents P.version s (state S.Store office.old)
        → IfOk result (λ reply. TakesStep P.represents P.version s (Command.Import source file.items) reply.done
        (state S.Store office.new)) }
    ensures kept { HasCleanDisk (state S.Store office.new)
        → IfOk result (λ reply. IsOk reply.done → IsTrue (state S.Store office.new).is_open) }
    ensures bytes { IfOk result (λ reply. reply.json ≡ reply_text reply.done) }
    ensures busy { IfErr result IsBusy }
    ensures cause { HasCleanDisk (state S.Store office.new)
        → (s : State) → IsSoundOffice s → IsIn P.represents P.version s (state S.Store office.old)
        → IfErr result (IsBusyFor (state S.Store office.old) (state S.Store office.new)) }
    ensures back { HasCleanDisk (state S.Store office.new)
        → OnErr result (IsAsBefore (state S.Store office.old) (state S.Store office.new)) }
    ensures crash { Survives (state S.Store office.old) (state S.Store office.new)
        (MayFind P.represents P.version (Command.Import source file.items) (state S.Store office.old)) }
{
    let import = Command::Import {
        source,
        file: List(file),
    };
    Ok(office.apply(alloc, &import)?)
}

/// Prints the JSON of an accepted reply as a line. If standard output fails, the fault is `File`, and a front of the
/// line was printed. A refusal is not printed, but returned as a fault with its line, or as `Memory` if there is no
/// memory for that. `reply.json` must be the JSON of `reply.done`.
pub fn tell_reply<W: Write>(alloc: Global, reply: Reply, out: &mut Sink<'_, W>) -> Result<(), Fault>
    requires { reply.json ≡ reply_text reply.done }
    ensures done { OnOk result (ReplyPrinted reply.done out.old out.new) }
    ensures fault { IfErr result (ReplyFails reply.done out.old out.new) }
{
    match reply.done {
        Ok(_) => {
            write_line(out, reply.json.as_slice())?;
            Ok(())
        }
        Err(why) => Err(refusal_fault(alloc, why)),
    }
}
