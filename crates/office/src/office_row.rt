//! The office's own row.

ghost use Rattle.std.specs.Prelude.{◌≡◌};
ghost use Rattle.office_core.specs.SoundOffice.{IsSoundOffice};
ghost use Rattle.office_tables.specs.Calls.{Answers};
ghost use Rattle.office_tables.specs.Premises.{◌within◌gives◌};
ghost use Rattle.office.specs.Rows.{limits_of_row};
ghost use Rattle.refinement.specs.AccessConditions.{RepresentsWhole};
ghost use Rattle.refinement.specs.Representation.{office_of};

use catalogue_statements::OfficeRow;
use catalogue_store::{Places, settings};
use desk_core::Limits;
use office_tables::{StoreFault, Tables};
use sqlite::Alter;
use std::alloc::Global;

/// Reads the office's own row: its settings, its day, and the number of its next unit.
pub(crate) fn own_row<P: Places, S: Alter>(
    alloc: Global,
    tables: &mut Tables<P, S>,
) -> Result<OfficeRow, StoreFault>
    ensures answers { Answers S.Store (RepresentsWhole P.represents P.version) tables.old tables.new result
        within IsSoundOffice gives λ _ s row. row ≡ office_of s }
{
    settings(alloc, tables)
}

/// The settings in the row, as the desk's limits.
pub(crate) fn limits_in(row: &OfficeRow) -> Limits
    ensures { result ≡ limits_of_row row.now }
{
    Limits {
        seats: row.seats,
        daily: row.daily,
        hands: row.hands,
        run: row.run_size,
    }
}
