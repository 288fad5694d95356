//! The tasks that a command line can name, and the faults of one that names none.
ghost use Rattle.std.specs.Prelude.{◌≡◌};

use isad_core::Text;
use office::{Settings, SettingsFault};
use std::alloc::AllocError;

/// A command of the program, with its values.
#[derive(Debug, Drop)]
pub enum Task {
    /// Prints the finding aids of a file's published descriptions.
    Preview {
        /// The country code.
        country: Text,
        /// The repository code.
        repo: Text,
        /// The file's path. If it is left out, standard input is read.
        file: Option<Text>,
    },
    /// Makes a new office in a file that does not exist yet.
    Init {
        /// The path of the file that keeps the office.
        store: Text,
        /// The settings with which the office begins.
        settings: Settings,
    },
    /// Answers requests on a new office in memory, which is discarded at the end.
    Trial {
        /// The settings with which the office begins.
        settings: Settings,
    },
    /// Imports the descriptions of a file into the office.
    Import {
        /// The path of the file that keeps the office.
        store: Text,
        /// The name of the place that the file comes from.
        source: Text,
        /// The file's path.
        file: Text,
    },
    /// Answers requests from standard input.
    Talk {
        /// The path of the file that keeps the office.
        store: Text,
    },
    /// Serves connections on 127.0.0.1, one after the other.
    Serve {
        /// The path of the file that keeps the office.
        store: Text,
        /// The port, from 1 to 65535.
        port: u16,
        /// How many connections are served, from 1 to 10000.
        connections: u32,
    },
    /// Checks whether the office is sound.
    Check {
        /// The path of the file that keeps the office.
        store: Text,
    },
    /// Migrates an office from version 1 to version 2.
    Migrate {
        /// The path of the file that keeps the office.
        store: Text,
    },
}

/// Why a command line is not valid.
#[derive(Debug, Drop)]
pub enum TaskFault {
    /// There was no memory.
    Memory,
    /// The command does not take the words. The text is the message for the user.
    Words(Text),
    /// The text is not a day from 1900-01-01 to 9999-12-31, as YYYY-MM-DD.
    Date,
    /// A number of the settings is not within its limits, or the code of a country or repository has a wrong form.
    Settings,
}

impl From<AllocError> for TaskFault {
    ghost use Rattle.program.specs.declared.tasks.TaskFault.TheVariants.{Memory};

    ghost from_gives = { λ _ e. e ≡ Memory };

    fn from(_: AllocError) -> TaskFault {
        TaskFault::Memory
    }
}

impl From<SettingsFault> for TaskFault {
    ghost use Rattle.program.specs.Tasks.{fault_of_settings};

    ghost from_gives = { λ f e. e ≡ fault_of_settings f };

    fn from(fault: SettingsFault) -> TaskFault {
        match fault {
            SettingsFault::Memory => TaskFault::Memory,
            _ => TaskFault::Settings,
        }
    }
}
