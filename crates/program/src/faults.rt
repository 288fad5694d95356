//! Why a command was not done, with its exit status and its message.
ghost use Rattle.std.specs.Prelude.{◌≡◌, IfOk};
ghost use Rattle.program.specs.Faults.{Refuses, line_of_refusal, message_of, exit_status};

use crate::files::FileFault;
use crate::streams::{ReadFault, WriteFault};
use crate::tasks::TaskFault;
use isad_core::Text;
use office::{Busy, OpenFault, Refusal};
use std::alloc::{AllocError, Global};

/// How a session broke off: no answer closed it, and its input did not end after a whole message.
#[derive(Clone, Copy, Debug, PartialEq, Eq, Drop)]
pub enum Break {
    /// The input ended inside a message.
    Cut,
    /// A read failed.
    Read,
    /// A write or a flush failed.
    Write,
    /// All reads that one message may take were made, or all writes and flushes that one text may take.
    Bound,
}

/// Why a command was not done.
#[derive(Debug, Drop)]
pub enum Fault {
    /// It was refused. The text is the line of the refusal, with its line feed.
    Refused(Text),
    /// A check found no sound office of this version, and printed that on standard output.
    NotSound,
    /// The command line is not valid. The text explains why.
    Words(Text),
    /// The day is not one from 1900-01-01 to 9999-12-31, as YYYY-MM-DD.
    Date,
    /// A number of the settings is not within its limits, or the code of a country or repository has a wrong form.
    Settings,
    /// A file or a standard stream could not be read or written, or the file of a store was not found, or could not be
    /// made, for example because it exists.
    File,
    /// The store could not be opened, read or written, or holds no sound office of this version.
    Store,
    /// A port could not be bound, or a connection could not be accepted.
    Net,
    /// A session broke off.
    Session(Break),
    /// There was no memory.
    Memory,
}

impl Fault {
    /// The exit status: 1 for a refusal and for a check that found no sound office, 2 for words, a day or settings that
    /// are not valid, 3 for all else.
    pub fn status(&self) -> u8
        ensures { result ≡ exit_status self.now }
    {
        match self {
            Fault::Refused(_) | Fault::NotSound => 1,
            Fault::Words(_) | Fault::Date | Fault::Settings => 2,
            Fault::File | Fault::Store | Fault::Net | Fault::Session(_) | Fault::Memory => 3,
        }
    }

    /// What is printed on standard error: the text of `Refused` or `Words`, nothing for `NotSound`, and otherwise the
    /// fixed line of the fault.
    pub fn message(&self) -> &str
        ensures { result.now ≡ message_of self.now }
    {
        match self {
            Fault::Refused(line) => line.as_str(),
            Fault::NotSound => "",
            Fault::Words(text) => text.as_str(),
            Fault::Date => "bad date\n",
            Fault::Settings => "bad settings\n",
            Fault::File => "file fault\n",
            Fault::Store => "store fault\n",
            Fault::Net => "net fault\n",
            Fault::Session(Break::Cut) => "cut\n",
            Fault::Session(Break::Read) => "read fault\n",
            Fault::Session(Break::Write) => "write fault\n",
            Fault::Session(Break::Bound) => "bound\n",
            Fault::Memory => "no memory\n",
        }
    }
}

/// The line of a refusal: `refused`, its number, its name, the row and cause or the container that it names, if it
/// names one, and a line feed.
pub fn refusal_line(alloc: Global, why: Refusal) -> Result<Text, AllocError>
    ensures { IfOk result (λ t. t ≡ line_of_refusal why) }
{
    let code = why.code();
    let name = why.name();
    match why {
        Refusal::BadFile { row, cause } => Ok(Text(format!(in alloc;
            "refused {code} {name} row {row} cause {cause}\n"
        )?)),
        Refusal::WithReader { container } => Ok(Text(format!(in alloc;
            "refused {code} {name} container {container}\n"
        )?)),
        _ => Ok(Text(format!(in alloc; "refused {code} {name}\n")?)),
    }
}

/// The fault of a refusal, with its line; or `Memory` if there is no memory for the line.
pub fn refusal_fault(alloc: Global, why: Refusal) -> Fault
    ensures { Refuses why result }
{
    match refusal_line(alloc, why) {
        Ok(line) => Fault::Refused(line),
        Err(_) => Fault::Memory,
    }
}

impl From<AllocError> for Fault {
    ghost use Rattle.program.specs.declared.faults.Fault.TheVariants.{Memory};

    ghost from_gives = { λ _ e. e ≡ Memory };

    fn from(_: AllocError) -> Fault {
        Fault::Memory
    }
}

impl From<TaskFault> for Fault {
    ghost use Rattle.program.specs.Faults.{fault_of_words};

    ghost from_gives = { λ f e. e ≡ fault_of_words f };

    fn from(fault: TaskFault) -> Fault {
        match fault {
            TaskFault::Memory => Fault::Memory,
            TaskFault::Words(text) => Fault::Words(text),
            TaskFault::Date => Fault::Date,
            TaskFault::Settings => Fault::Settings,
        }
    }
}

impl From<OpenFault> for Fault {
    ghost use Rattle.program.specs.Faults.{fault_of_opening};

    ghost from_gives = { λ f e. e ≡ fault_of_opening f };

    fn from(fault: OpenFault) -> Fault {
        match fault {
            OpenFault::Memory => Fault::Memory,
            _ => Fault::Store,
        }
    }
}

impl From<FileFault> for Fault {
    ghost use Rattle.program.specs.Faults.{fault_of_file};

    ghost from_gives = { λ f e. e ≡ fault_of_file f };

    fn from(fault: FileFault) -> Fault {
        match fault {
            FileFault::Memory => Fault::Memory,
            FileFault::Absent => Fault::File,
            FileFault::Unopened => Fault::Store,
        }
    }
}

impl From<Busy> for Fault {
    ghost use Rattle.program.specs.Faults.{fault_of_busy};

    ghost from_gives = { λ f e. e ≡ fault_of_busy f };

    fn from(busy: Busy) -> Fault {
        match busy {
            Busy::Memory => Fault::Memory,
            Busy::Disk | Busy::Schema => Fault::Store,
        }
    }
}

impl From<ReadFault> for Fault {
    ghost use Rattle.program.specs.Faults.{fault_of_reading};

    ghost from_gives = { λ f e. e ≡ fault_of_reading f };

    fn from(fault: ReadFault) -> Fault {
        match fault {
            ReadFault::Memory => Fault::Memory,
            ReadFault::Failed => Fault::File,
        }
    }
}

impl From<WriteFault> for Fault {
    ghost use Rattle.program.specs.declared.faults.Fault.TheVariants.{File};

    ghost from_gives = { λ _ e. e ≡ File };

    fn from(_: WriteFault) -> Fault {
        Fault::File
    }
}
