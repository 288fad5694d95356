//! The check of the reading room's tables.
#![tactic(auto, using(crate::proofs::ExaminationEnds::passes, crate::proofs::ExaminationEnds::passes_later, crate::proofs::ExaminationEnds::is_full))]

ghost use Rattle.std.specs.Prelude.{◌≡◌, map};
ghost use Rattle.row_decoding.specs.Examinations.{Examines};
ghost use Rattle.integrity_checks.specs.DeskChecks.{defect_of_past, defect_of_orders, desk_defect};
ghost use Rattle.integrity_checks.specs.DeskJudgments.{FollowsDeskRule, FollowsDeskRuleWith, defect_beside_readers};
ghost use Rattle.desk_core.specs.RowRecords.{order_record};

use crate::desk_defect::DeskDefect;
use crate::desk_rows::{
    holdings_are_good, permits_are_good, runs_are_good, seats_are_good, surroundings,
};
use crate::readers::count_if_registered;
use desk_core::Limits;
use desk_core::consistency::{Around, OrderRow, are_good_orders};
use isad_core::Day;
use office_tables::{StoreFault, Tables, Versioned};
use row_decoding::orders;
use sqlite::Alter;
use std::alloc::Global;

/// The first of the holdings and the runs that is defective with these orders, or none. `around` must be what
/// `surroundings` returns for these tables, and `orders` all rows of the table of orders, by number, each readable and
/// found good.
fn check_past<P: Versioned, S: Alter>(
    alloc: Global,
    tables: &mut Tables<P, S>,
    around: &Around,
    orders: &[OrderRow],
) -> Result<Option<DeskDefect>, StoreFault>
    ensures { Examines S.Store tables.old tables.new result
        (FollowsDeskRuleWith around.now (map order_record orders.now) defect_of_past) }
{
    if !holdings_are_good(alloc, tables, around, orders)? {
        return Ok(Some(DeskDefect::Holdings));
    }
    if !runs_are_good(alloc, tables, around, orders)? {
        return Ok(Some(DeskDefect::Runs));
    }
    Ok(None)
}

/// The first of the orders, the holdings and the runs that is defective, or none. `around` must be what `surroundings`
/// returns for these tables.
fn check_orders<P: Versioned, S: Alter>(
    alloc: Global,
    tables: &mut Tables<P, S>,
    around: &Around,
) -> Result<Option<DeskDefect>, StoreFault>
    ensures { Examines S.Store tables.old tables.new result (FollowsDeskRule around.now defect_of_orders) }
{
    let all = orders(alloc, tables)?;
    let are_good = are_good_orders(alloc, around, &all.rows)?;
    let are_sound = all.are_read && are_good;
    if !are_sound {
        return Ok(Some(DeskDefect::Orders));
    }
    check_past(alloc, tables, around, &all.rows)
}

/// The first part that is defective, or none: the seats and the permits, then the orders and the rest. `around` must be
/// what `surroundings` returns for these tables.
fn check_cards<P: Versioned, S: Alter>(
    alloc: Global,
    tables: &mut Tables<P, S>,
    around: &Around,
) -> Result<Option<DeskDefect>, StoreFault>
    ensures { Examines S.Store tables.old tables.new result (FollowsDeskRule around.now defect_beside_readers) }
{
    if !seats_are_good(alloc, tables, around)? {
        return Ok(Some(DeskDefect::Readers));
    }
    if !permits_are_good(alloc, tables, around)? {
        return Ok(Some(DeskDefect::Readers));
    }
    check_orders(alloc, tables, around)
}

/// The first part of the desk, in the order readers with seats and permits, orders, holdings, runs, of which a row
/// cannot be read or whose rows no desk of an office with these limits can have on this day; none if there is no such
/// part. Reads all tables completely, unless a defect is found before. Rows other than the readers' are held in memory.
pub fn load_check_desk<P: Versioned, S: Alter>(
    alloc: Global,
    tables: &mut Tables<P, S>,
    limits: &Limits,
    today: Day,
) -> Result<Option<DeskDefect>, StoreFault>
    ensures { Examines S.Store tables.old tables.new result (λ db told. told ≡ desk_defect limits.now today db) }
{
    let Some(readers) = count_if_registered(tables)? else {
        return Ok(Some(DeskDefect::Readers));
    };
    let around = surroundings(alloc, tables, limits, today, readers)?;
    check_cards(alloc, tables, &around)
}
