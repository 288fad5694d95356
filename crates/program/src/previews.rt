//! Prints the finding aids of a file.
ghost use Rattle.std.specs.Prelude.{◌≡◌, IfErr, IfOk, OnOk};
ghost use Rattle.program.specs.Faults.{RefusesFile};
ghost use Rattle.program.specs.ReadFiles.{path_of};
ghost use Rattle.program.specs.CommandEffects.{PreviewDone, PreviewFails, ReadingFails, ReadsInput, ReadsPart};

use crate::faults::{Fault, refusal_fault};
use crate::files::{Reading, file_bytes};
use crate::streams::{ReadFault, read_to_end, write_whole};
use atom_csv::FileFault;
use http_desk::streams::{Sink, Source};
use isad_core::Text;
use office::{Refusal, preview};
use std::alloc::Global;
use std::io::{Read, Write};

/// Reads the file, or standard input if there is none.
fn read_file<R: Read>(
    alloc: Global,
    input: Option<Reading<'_>>,
    reader: &mut Source<'_, R>,
) -> Result<Vec<u8>, ReadFault>
    ensures reads { IfOk result (λ v. ReadsInput (path_of input.entry) reader.old reader.new v.items) }
    ensures front { ReadsPart (path_of input.entry) reader.old reader.new }
    ensures fails { IfErr result (λ e. e ≡ ReadFault.Failed
        → ReadingFails (path_of input.entry) reader.old reader.new) }
{
    match input {
        Some(reading) => file_bytes(reading, alloc),
        None => read_to_end(alloc, reader),
    }
}

/// The fault of a file that gives no finding aids.
fn refused_file(alloc: Global, fault: FileFault) -> Fault
    ensures { RefusesFile fault result }
{
    match fault {
        FileFault::Memory => Fault::Memory,
        FileFault::Bad { row, cause } => refusal_fault(alloc, Refusal::BadFile { row, cause }),
    }
}

/// Prints the finding aids of a file, or of standard input if there is none. If it cannot be read or is refused, or
/// there is no memory, nothing is printed; a refusal is a fault with its line. If standard output fails, a front of the
/// text was printed. The contract does not say what was read of a file.
pub fn print_preview<R: Read, W: Write>(
    alloc: Global,
    country: &Text,
    repo: &Text,
    input: Option<Reading<'_>>,
    reader: &mut Source<'_, R>,
    out: &mut Sink<'_, W>,
) -> Result<(), Fault>
    ensures done { OnOk result (PreviewDone country.now repo.now (path_of input.entry)
        reader.old reader.new out.old out.new) }
    ensures fault { IfErr result (PreviewFails country.now repo.now (path_of input.entry)
        reader.old reader.new out.old out.new) }
{
    let file = read_file(alloc, input, reader)?;
    match preview(alloc, file.as_slice(), country.as_str(), repo.as_str()) {
        Ok(aids) => {
            write_whole(out, aids.as_slice())?;
            Ok(())
        }
        Err(fault) => Err(refused_file(alloc, fault)),
    }
}
