//! The remarks on the rows of a file, after these were entered.

ghost use Rattle.std.specs.Prelude.{◌≡◌, Some, find, is_some, IfSome};
ghost use Rattle.std.specs.List.{list_all};
ghost use Rattle.std.specs.Option.{option_to_list};
ghost use Rattle.isad_core.specs.Levels.{rank_of};
ghost use Rattle.isad_core.specs.Texts.{Bytes};
ghost use Rattle.isad_core.specs.Values.{text_of};
ghost use Rattle.tree_core.specs.Forest.{nodes, path};
ghost use Rattle.catalogue_core.specs.Bounds.{IsKept};
ghost use Rattle.catalogue_core.specs.Units.{has_id, is_from};
ghost use Rattle.catalogue_core.specs.Units.{«Unit» as Described};
ghost use Rattle.office_core.specs.ImportReply.{is_level_above, remark_if};
ghost use Rattle.office_core.specs.ImportReply as reply;
ghost use Rattle.office_core.specs.declared.done.Remark.TheVariants.{LacksEssential, LevelTooHigh};
ghost use Rattle.office_tables.specs.Calls.{Answers};
ghost use Rattle.office_tables.specs.Premises.{◌within◌and◌gives◌, ◌within◌gives◌};
ghost use Rattle.catalogue_statements.specs.Representation.{Represents};
ghost use Rattle.csv_import.specs.Remarks.{HasParent, HaveParents, HaveUnits, IsRankOf, IsRanked};

use atom_csv::Row;
use catalogue_statements::units::find_level;
use catalogue_store::Places;
use isad_core::{Element, List, Number, Values, is_blank, rank};
use office_core::Remark;
use office_tables::{StoreFault, Tables};
use sqlite::Alter;
use std::alloc::Global;

/// The elements that are essential for international exchange, besides the level.
const ESSENTIAL: [Element; 5] = [
    Element::ReferenceCode,
    Element::Title,
    Element::Creator,
    Element::Dates,
    Element::Extent,
];

/// Whether a description has a text for each of these elements.
fn has_each(values: &Values, elements: &[Element]) -> bool
    ensures { result ≡ list_all (λ element. is_some (text_of element values.now)) elements.now }
{
    elements
        .iter()
        .all(|element| values.text(*element).is_some())
}

/// Whether one of the essential elements is missing.
fn lacks_essential(values: &Values) -> bool
    ensures { result ≡ reply.lacks_essential values.now }
{
    is_blank(values.level.as_str()) || !has_each(values, ESSENTIAL.as_slice())
}

/// Whether a known rank belongs above another known rank.
fn is_above(rank: Option<u8>, other: Option<u8>) -> bool
    ensures { result ≡ is_level_above rank other }
{
    match (rank, other) {
        (Some(rank), Some(other)) => rank < other,
        _ => false,
    }
}

/// A unit and the rank of its level. It is kept for the last unit that was looked up, because rows with the same parent
/// mostly stand together.
#[derive(Clone, Copy)]
struct Ranked {
    unit: Number,
    rank: Option<u8>,
}

/// What is kept, if it is for the unit with this number.
fn kept_of(last: &Option<Ranked>, unit: Number) -> Option<Ranked>
    ensures { IfSome result (λ ranked. (last.now ≡ Some ranked) × (ranked.unit ≡ unit)) }
{
    match last {
        Some(ranked) if ranked.unit == unit => Some(*ranked),
        _ => None,
    }
}

/// The rank of the level of the unit with this number.
fn rank_there<P: Places, S: Alter>(
    alloc: Global,
    tables: &mut Tables<P, S>,
    unit: Number,
) -> Result<Option<u8>, StoreFault>
    ensures answers { Answers S.Store (Represents P.represents P.version) tables.old tables.new result
        within IsKept gives λ _ c rank. IsRankOf c unit rank }
{
    let Some(level) = find_level(alloc, tables, unit)? else {
        return Ok(None);
    };
    Ok(rank(level.as_str()))
}

/// The same, but a rank that is kept is not looked up again, and the rank is kept afterwards.
fn kept_rank<P: Places, S: Alter>(
    alloc: Global,
    tables: &mut Tables<P, S>,
    last: &mut Option<Ranked>,
    unit: Number,
) -> Result<Option<u8>, StoreFault>
    ensures answers { Answers S.Store (Represents P.represents P.version) tables.old tables.new result
        within IsKept gives λ _ c rank. IsRanked c last.old → IsRankOf c unit rank × IsRanked c last.new }
{
    if let Some(ranked) = kept_of(last, unit) {
        return Ok(ranked.rank);
    }
    let rank = rank_there(alloc, tables, unit)?;
    *last = Some(Ranked { unit, rank });
    Ok(rank)
}

/// The remark on a row whose unit is right below the one with this number.
fn remark_below<P: Places, S: Alter>(
    alloc: Global,
    tables: &mut Tables<P, S>,
    last: &mut Option<Ranked>,
    parent: Number,
    row: &Row,
) -> Result<Option<Remark>, StoreFault>
    ensures answers { Answers S.Store (Represents P.represents P.version) tables.old tables.new result
        within IsKept and (λ c. (unit : Described) × (find (has_id parent) (nodes c.forest) ≡ Some unit))
        gives λ _ c told. IsRanked c last.old → IsRanked c last.new
        × ((unit : Described) → find (has_id parent) (nodes c.forest) ≡ Some unit
        → option_to_list told ≡ remark_if (is_level_above (rank_of row.now.values.level) (rank_of unit.values.level))
        (LevelTooHigh row.now.row)) }
{
    let above = kept_rank(alloc, tables, last, parent)?;
    if is_above(rank(row.values.level.as_str()), above) {
        return Ok(Some(Remark::LevelTooHigh { row: row.row }));
    }
    Ok(None)
}

/// The remark on a row whose unit is a top.
fn remark_on_top(row: &Row) -> Option<Remark>
    ensures { option_to_list result ≡ remark_if (reply.lacks_essential row.now.values) (LacksEssential row.now.row) }
{
    if lacks_essential(&row.values) {
        return Some(Remark::LacksEssential { row: row.row });
    }
    None
}

/// The remark on a row whose unit is right below the one with this number, or is a top.
fn remark_on<P: Places, S: Alter>(
    alloc: Global,
    tables: &mut Tables<P, S>,
    last: &mut Option<Ranked>,
    parent: &Option<Number>,
    row: &Row,
) -> Result<Option<Remark>, StoreFault>
    ensures answers { (source : Bytes) → Answers S.Store (Represents P.represents P.version)
        tables.old tables.new result
        within IsKept and HasParent source row.now parent.now gives λ _ c told. IsRanked c last.old
        → HasParent source row.now parent.now c → IsRanked c last.new
        × (option_to_list told ≡ reply.remark_on row.now.row (path (is_from source row.now.legacy) c.forest)) }
{
    match parent {
        Some(parent) => remark_below(alloc, tables, last, *parent, row),
        None => Ok(remark_on_top(row)),
    }
}

/// The remarks on rows whose units are right below those with these numbers, or are tops.
fn remarks_below<P: Places, S: Alter>(
    alloc: Global,
    tables: &mut Tables<P, S>,
    parents: &[Option<Number>],
    rows: &[Row],
) -> Result<List<Remark>, StoreFault>
    ensures answers { (source : Bytes) → Answers S.Store (Represents P.represents P.version)
        tables.old tables.new result
        within IsKept and HaveParents source rows.now parents.now
        gives λ _ c told. HaveParents source rows.now parents.now
        c → told ≡ reply.remarks c.forest source rows.now }
{
    let mut told = List::new(alloc);
    let mut last = None;
    for (row, parent) in rows.iter().zip(parents) {
        if let Some(remark) = remark_on(alloc, tables, &mut last, parent, row)? {
            told.push(remark)?;
        }
    }
    Ok(told)
}

/// The remarks on the rows of a file from a source, in their order, after all of them were entered. `units` are the
/// rows' units.
pub(crate) fn remarks<P: Places, S: Alter>(
    alloc: Global,
    tables: &mut Tables<P, S>,
    units: &[Number],
    rows: &[Row],
) -> Result<List<Remark>, StoreFault>
    ensures answers { (source : Bytes) → Answers S.Store (Represents P.represents P.version)
        tables.old tables.new result
        within IsKept and HaveUnits source rows.now units.now
        gives λ _ c told. HaveUnits source rows.now units.now c → told ≡ reply.remarks c.forest source rows.now }
{
    let parents = P::parents(alloc, tables, units)?;
    remarks_below(alloc, tables, &parents, rows)
}
