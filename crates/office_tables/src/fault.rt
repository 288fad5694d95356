//! Why a call on the tables fails.

use sqlite::{Error, ErrorCode};
use std::alloc::{AllocError, AllocFailed};

/// Why a call on the tables failed. The caller must then roll its transaction back: the transaction goes on with what
/// was done so far, or has been rolled back already.
#[derive(Clone, Copy, Debug, PartialEq, Eq)]
pub enum StoreFault {
    /// Growth was refused: of memory, or of the store, if a row is too long for it (10^9 bytes) or a table has used its
    /// last row number (2^63 - 1).
    Memory,
    /// The store's disk failed, or an earlier failure had shut the store.
    Disk,
    /// The tables are not an office's, a row or a number does not fit them, no transaction is open or one is open
    /// already, or tables that are to be made are already there.
    Schema,
}

impl From<AllocError> for StoreFault {
    ghost use Rattle.std.specs.Prelude.{◌≡◌};
    ghost use Rattle.office_tables.specs.declared.fault.StoreFault.TheVariants as fault;

    ghost from_gives = { λ _ f. f ≡ fault.Memory };

    fn from(_: AllocError) -> StoreFault {
        StoreFault::Memory
    }
}

impl<T: Drop> From<AllocFailed<T>> for StoreFault {
    ghost use Rattle.std.specs.Prelude.{◌≡◌};
    ghost use Rattle.office_tables.specs.declared.fault.StoreFault.TheVariants as fault;

    ghost from_gives = { λ _ f. f ≡ fault.Memory };

    fn from(_: AllocFailed<T>) -> StoreFault {
        StoreFault::Memory
    }
}

impl From<Error> for StoreFault {
    ghost use Rattle.std.specs.Prelude.{◌≡◌};
    ghost use Rattle.office_tables.specs.Faults.{fault_of};

    ghost from_gives = { λ e f. f ≡ fault_of e };

    fn from(error: Error) -> StoreFault {
        match error {
            Error::SqliteFailure(ErrorCode::OutOfMemory | ErrorCode::TooBig | ErrorCode::NoRowid) =>
                StoreFault::Memory,
            Error::SqliteFailure(
                ErrorCode::SystemIoFailure
                | ErrorCode::DatabaseCorrupt
                | ErrorCode::DiskFull
                | ErrorCode::Closed,
            ) => StoreFault::Disk,
            _ => StoreFault::Schema,
        }
    }
}
