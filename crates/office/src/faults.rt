//! Why an office is not opened, and why it is busy.

ghost use Rattle.std.specs.Prelude.{◌≡◌};
ghost use Rattle.office.specs.Adoption.{fault_for_verdict};
ghost use Rattle.office.specs.OfficeCall.{busy_for};

use adoption::Verdict;
use office_core::Busy;
use office_tables::StoreFault;

/// Why no office was opened. The tables are unchanged.
#[derive(Clone, Copy, Debug, PartialEq, Eq)]
pub enum OpenFault {
    /// There is not enough memory.
    Memory,
    /// The store's disk failed.
    Disk,
    /// A new office was to be made, but there are tables already; or an office was to be opened, but the tables are not
    /// this product's.
    Schema,
    /// The table `office` cannot be read, or does not have exactly one row.
    NoOffice,
    /// The tables are of an older version than was expected.
    OldVersion,
    /// The tables are of a newer version than was expected.
    NewVersion,
    /// No sound office has such rows. The number is the least of the ten causes that holds.
    Unsound(u8),
}

impl From<StoreFault> for OpenFault {
    ghost use Rattle.std.specs.Prelude.{◌≡◌};
    ghost use Rattle.office.specs.NewOffice.{open_fault_of};

    ghost from_gives = { λ f b. b ≡ open_fault_of f };

    fn from(fault: StoreFault) -> OpenFault {
        match fault {
            StoreFault::Memory => OpenFault::Memory,
            StoreFault::Disk => OpenFault::Disk,
            StoreFault::Schema => OpenFault::Schema,
        }
    }
}

/// Why an office is not opened over tables with this verdict, or none if they are a sound office's.
pub(crate) fn fault_for(verdict: Verdict) -> Option<OpenFault>
    ensures { result ≡ fault_for_verdict verdict }
{
    match verdict {
        Verdict::Sound => None,
        Verdict::NoOffice => Some(OpenFault::NoOffice),
        Verdict::OldVersion => Some(OpenFault::OldVersion),
        Verdict::NewVersion => Some(OpenFault::NewVersion),
        Verdict::OtherTables => Some(OpenFault::Schema),
        Verdict::Unsound(cause) => Some(OpenFault::Unsound(cause)),
    }
}

/// Why an office is busy, given the fault of its store.
pub(crate) fn busy(fault: StoreFault) -> Busy
    ensures { result ≡ busy_for fault }
{
    match fault {
        StoreFault::Memory => Busy::Memory,
        StoreFault::Disk => Busy::Disk,
        StoreFault::Schema => Busy::Schema,
    }
}
