//! One command, from its words and streams to its exit status.
ghost use Rattle.std.specs.Prelude.{◌≡◌, ◌≤◌, map};
ghost use Rattle.std.specs.String.{string_bytes};
ghost use Rattle.sqlite.specs.WalFiles.{image_at};
ghost use Rattle.program.specs.Faults.{message_of, exit_status};
ghost use Rattle.program.specs.CommandEffects.{IsPerformed, Tells, channels};

use crate::commands::run;
use crate::faults::Fault;
use crate::files::{Openings, Outcome};
use crate::ports::Port;
use crate::streams::write_whole;
use http_desk::streams::{Sink, Source};
use sqlite::{FileFrom, Start};
use sqlite_disk::Disk;
use std::alloc::Global;
use std::io::{Read, Write};

/// Performs the command of the words after the program's name, with these streams as standard input, output and error.
/// Only `serve` uses the port. Returns the exit status, and what became of the store: if it was opened, its file and
/// its log are closed. The two may have held anything before: `S` gives their content. The status is 0 if the command
/// was done; otherwise it is 1 to 3, by the fault, whose message is written on standard error as far as that takes it.
pub fn perform<S: Start, R: Read, W: Write, E: Write, P: Port>(
    openings: Openings<'_, S>,
    alloc: Global,
    words: &[String],
    reader: &mut Source<'_, R>,
    out: &mut Sink<'_, W>,
    err: &mut Sink<'_, E>,
    port: &mut P,
) -> (u8, Outcome<S>)
    ensures performs { IsPerformed ⟦<FileFrom<S> as Disk>⟧ (image_at S.Start) (map string_bytes words.now)
        (channels reader.old out.old (P.history port.old)) (channels reader.new out.new (P.history port.new))
        err.old err.new result.1 result.0 }
    ensures status { result.0 ≤ 3 }
{
    let (done, outcome) = run(openings, alloc, words, reader, out, port);
    let status = match done {
        Ok(()) => 0,
        Err(fault) => tell(&fault, err),
    };
    (status, outcome)
}

/// Prints on standard error why a command was not done, and returns the exit status. The status is the same whether
/// standard error takes the text, or fails after a front of it.
pub fn tell<E: Write>(fault: &Fault, err: &mut Sink<'_, E>) -> u8
    ensures status { result ≡ exit_status fault.now }
    ensures told { Tells err.old err.new (message_of fault.now) }
{
    let _ = write_whole(err, fault.message().as_bytes());
    fault.status()
}
