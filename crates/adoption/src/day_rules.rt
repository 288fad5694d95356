//! The rules of the day, for tables that are otherwise a sound office's.

ghost use Rattle.std.specs.Prelude.{◌≡◌, Some};
ghost use Rattle.state_encoding.specs.Causes.{day_is_broken};
ghost use Rattle.state_encoding.specs.CellCauses.{rows_in};
ghost use Rattle.adoption.specs.Judgments.{Judges, ◌within◌tells◌};
ghost use Rattle.adoption.specs.OwnRows.{own_row_of};
ghost use Rattle.adoption.specs.SoundTables.{AreGoodTables};

use crate::own_row::OwnRow;
use integrity_checks::CheckedPlaces;
use office_tables::{StoreFault, Tables};
use sqlite::Alter;
use std::alloc::Global;

/// Whether a container is out against a rule of the day, if `own` is the office's own row and none of the causes 1 to 9
/// holds.
pub(crate) fn breaks_day_rules<P: CheckedPlaces, S: Alter>(
    alloc: Global,
    tables: &mut Tables<P, S>,
    own: &OwnRow,
) -> Result<bool, StoreFault>
    ensures { Judges S.Store tables.old tables.new result
        within (λ s. AreGoodTables P.version s.now)
        tells λ s broken. own_row_of P.version s.now.trees ≡ Some own.now → AreGoodTables P.version s.now
        → broken ≡ day_is_broken (rows_in P.version s.now.trees) }
{
    access::breaks_day_rules(alloc, tables, own.limits.hands, own.today)
}
