//! Whether all rows of a table of the desk can be read and can be a desk's.
#![tactic(auto, using(crate::proofs::ExaminationEnds::passes, crate::proofs::ExaminationEnds::passes_later, crate::proofs::ExaminationEnds::is_full))]

ghost use Rattle.std.specs.Prelude.{◌≡◌, Some, map};
ghost use Rattle.row_decoding.specs.Examinations.{Examines};
ghost use Rattle.row_decoding.specs.TableRows.{desk_in};
ghost use Rattle.integrity_checks.specs.DeskChecks.{around_in};
ghost use Rattle.integrity_checks.specs.DeskJudgments.{FollowsDeskRule, FollowsDeskRuleWith};
ghost use Rattle.integrity_checks.specs.DeskJudgments.{good_seats_in, good_permits_in, good_holdings_in, good_runs_in};
ghost use Rattle.integrity_checks.specs.ReaderRows.{number_registered};
ghost use Rattle.desk_core.specs.RowRecords.{Surrounds, order_record};

use desk_core::Limits;
use desk_core::consistency::{
    Around, Numbers, OrderRow, are_good_holdings, are_good_permits, are_good_runs, are_good_seats,
};
use isad_core::Day;
use office_tables::{StoreFault, Tables, Versioned};
use row_decoding::{container_numbers, holdings, permits, run_lines, runs, seats, unit_numbers};
use sqlite::Alter;
use std::alloc::Global;

/// Reads what the desk is checked against: which numbers units and containers have, beside these limits, this day and
/// how many readers there are. `readers` must be what `count_if_registered` returned for these tables.
pub(crate) fn surroundings<P: Versioned, S: Alter>(
    alloc: Global,
    tables: &mut Tables<P, S>,
    limits: &Limits,
    today: Day,
    readers: u64,
) -> Result<Around, StoreFault>
    ensures { Examines S.Store tables.old tables.new result
        (λ db around. number_registered db ≡ Some readers
        → Surrounds around (around_in limits.now today db) (desk_in db)) }
{
    let units = unit_numbers(alloc, tables)?;
    let containers = container_numbers(alloc, tables)?;
    Ok(Around {
        seats: u64::from(limits.seats),
        daily: u64::from(limits.daily),
        run_size: u64::from(limits.run),
        day: i64::from(today.number()),
        readers,
        units: Numbers::sorted(units.rows),
        containers: Numbers::sorted(containers.rows),
    })
}

/// Whether all seats can be read and can be a desk's. `around` must be what `surroundings` returns for these tables.
pub(crate) fn seats_are_good<P: Versioned, S: Alter>(
    alloc: Global,
    tables: &mut Tables<P, S>,
    around: &Around,
) -> Result<bool, StoreFault>
    ensures { Examines S.Store tables.old tables.new result (FollowsDeskRule around.now good_seats_in) }
{
    let all = seats(alloc, tables)?;
    let are_good = are_good_seats(around, &all.rows);
    Ok(all.are_read && are_good)
}

/// Whether all permits can be read and can be a desk's. `around` must be what `surroundings` returns for these tables.
pub(crate) fn permits_are_good<P: Versioned, S: Alter>(
    alloc: Global,
    tables: &mut Tables<P, S>,
    around: &Around,
) -> Result<bool, StoreFault>
    ensures { Examines S.Store tables.old tables.new result (FollowsDeskRule around.now good_permits_in) }
{
    let all = permits(alloc, tables)?;
    let are_good = are_good_permits(alloc, around, &all.rows)?;
    Ok(all.are_read && are_good)
}

/// Whether all holdings can be read and can be a desk's. `around` must be what `surroundings` returns for these tables,
/// and `orders` all rows of the table of orders, by number, each readable and found good.
pub(crate) fn holdings_are_good<P: Versioned, S: Alter>(
    alloc: Global,
    tables: &mut Tables<P, S>,
    around: &Around,
    orders: &[OrderRow],
) -> Result<bool, StoreFault>
    ensures { Examines S.Store tables.old tables.new result
        (FollowsDeskRuleWith around.now (map order_record orders.now) good_holdings_in) }
{
    let all = holdings(alloc, tables)?;
    let are_good = are_good_holdings(alloc, around, orders, &all.rows)?;
    Ok(all.are_read && are_good)
}

/// Whether all runs and their lines can be read and can be a desk's. `around` must be what `surroundings` returns for
/// these tables, and `orders` all rows of the table of orders, by number, each readable and found good.
pub(crate) fn runs_are_good<P: Versioned, S: Alter>(
    alloc: Global,
    tables: &mut Tables<P, S>,
    around: &Around,
    orders: &[OrderRow],
) -> Result<bool, StoreFault>
    ensures { Examines S.Store tables.old tables.new result
        (FollowsDeskRuleWith around.now (map order_record orders.now) good_runs_in) }
{
    let all = runs(alloc, tables)?;
    let lines = run_lines(alloc, tables)?;
    let are_good = are_good_runs(alloc, around, orders, &all.rows, &lines.rows)?;
    let are_read = all.are_read && lines.are_read;
    Ok(are_read && are_good)
}
