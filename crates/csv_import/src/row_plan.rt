//! What is known about a file's rows before any is entered.

ghost use Rattle.std.specs.Prelude.{◌≡◌, List};
ghost use Rattle.std.specs.BTreeMap.{get_by_text};
ghost use Rattle.isad_core.specs.Texts.{Bytes};
ghost use Rattle.atom_csv.specs.declared.file.Row.{«Row» as RowTold};
ghost use Rattle.catalogue_core.specs.Bounds.{IsKept};
ghost use Rattle.catalogue_core.specs.GoodCatalogues.{AreGoodUnits};
ghost use Rattle.catalogue_core.specs.CatalogueMerge.{depth_under};
ghost use Rattle.office_tables.specs.Calls.{Answers};
ghost use Rattle.office_tables.specs.Premises.{◌within◌gives◌};
ghost use Rattle.catalogue_statements.specs.Representation.{Represents};
ghost use Rattle.catalogue_core.specs.EntryByRow.{number_there};
ghost use Rattle.csv_import.specs.KnownUnits.{KnowsUnits, TellsParent, TellsParentOfNew};
ghost use Rattle.csv_import.specs.RowPlan.{KnowsDepths, at_depth, by_number, placing_of, plan_of};

use crate::ancestor_depths::depths_below_many;
use crate::legacy::{DepthsBelow, UnitNumbers, kept_number};
use crate::paths::path_of;
use atom_csv::{Cause, Row, remember};
use catalogue_store::Places;
use isad_core::limits::MOST_DEEP;
use office_tables::{StoreFault, Tables};
use sqlite::Alter;
use std::alloc::Global;

/// What is known about the rows of a file before any is entered.
#[derive(Clone, Copy)]
pub(crate) enum Planned {
    /// All of them can be placed, and this many are new.
    Fits { new: u64 },
    /// The first row that cannot be placed, and why.
    Faulty { row: u32, cause: Cause },
}

/// How a row is placed.
#[derive(Clone, Copy)]
enum Placing {
    /// Its unit is catalogued.
    Known,
    /// It is new, and a row right below it would lie this deep.
    Fits { below: u64 },
    /// It cannot be placed, for this cause.
    Faulty { cause: Cause },
}

/// How deep a new row lies: 1 for a top; none if its parent does not exist. The path of a catalogued parent is read
/// once, because many rows of a file may have the same parent. `catalogued` has the parent's number if it is
/// catalogued.
fn depth_of<P: Places, S: Alter>(
    alloc: Global,
    tables: &mut Tables<P, S>,
    catalogued: &UnitNumbers,
    depths: &mut DepthsBelow,
    row: &Row,
) -> Result<Option<u64>, StoreFault>
    ensures answers { Answers S.Store (Represents P.represents P.version) tables.old tables.new result
        within IsKept
        gives λ _ c depth. AreGoodUnits c → (source : Bytes) → TellsParent c source (get_by_text catalogued.now) row.now
        → (above : List RowTold) → KnowsDepths c.forest source above (get_by_text depths.old)
        → (depth ≡ depth_under c.forest source row.now.parent above)
        × KnowsDepths c.forest source above (get_by_text depths.new) }
{
    let Some(parent) = &row.parent else {
        return Ok(Some(1));
    };
    if let Some(depth) = depths.get(parent.as_str()) {
        return Ok(Some(*depth));
    }
    let path = path_of(alloc, tables, kept_number(catalogued, parent))?;
    if path.is_empty() {
        return Ok(None);
    }
    let depth = path.len() as u64 + 1;
    remember(depths, alloc, parent, depth)?;
    Ok(Some(depth))
}

/// How a new row at this depth is placed.
fn placing_at(depth: Option<u64>) -> Placing
    ensures { result ≡ at_depth depth }
{
    match depth {
        None => Placing::Faulty {
            cause: Cause::NoParent,
        },
        Some(depth) if depth > MOST_DEEP => Placing::Faulty {
            cause: Cause::TooDeep,
        },
        Some(depth) => Placing::Fits { below: depth + 1 },
    }
}

/// How a row is placed, after the new rows above it in the file. `catalogued` has the numbers of its unit and its
/// parent if these are catalogued.
fn place<P: Places, S: Alter>(
    alloc: Global,
    tables: &mut Tables<P, S>,
    catalogued: &UnitNumbers,
    depths: &mut DepthsBelow,
    row: &Row,
) -> Result<Placing, StoreFault>
    ensures answers { Answers S.Store (Represents P.represents P.version) tables.old tables.new result
        within IsKept gives λ _ c placing. AreGoodUnits c → (source : Bytes)
        → get_by_text catalogued.now row.now.legacy ≡ number_there c source row.now.legacy
        → TellsParentOfNew c source (get_by_text catalogued.now) row.now
        → (above : List RowTold) → KnowsDepths c.forest source above (get_by_text depths.old)
        → (placing ≡ placing_of c.forest source above row.now)
        × KnowsDepths c.forest source above (get_by_text depths.new) }
{
    if kept_number(catalogued, &row.legacy).is_some() {
        return Ok(Placing::Known);
    }
    let depth = depth_of(alloc, tables, catalogued, depths, row)?;
    Ok(placing_at(depth))
}

/// The first row of a file that cannot be placed, or how many rows are new. `catalogued` has the numbers of the
/// catalogued units among those of the rows and their parents. Nothing is entered.
pub(crate) fn plan<P: Places, S: Alter>(
    alloc: Global,
    tables: &mut Tables<P, S>,
    catalogued: &UnitNumbers,
    rows: &[Row],
) -> Result<Planned, StoreFault>
    ensures answers { Answers S.Store (Represents P.represents P.version) tables.old tables.new result
        within IsKept
        gives λ _ c told. AreGoodUnits c → (source : Bytes) → KnowsUnits c source rows.now (get_by_text catalogued.now)
        → by_number told ≡ plan_of c.forest source rows.now }
{
    let mut depths = depths_below_many(alloc, tables, rows, catalogued)?;
    let mut new = 0;
    for row in rows {
        match place(alloc, tables, catalogued, &mut depths, row)? {
            Placing::Known => {}
            Placing::Fits { below } => {
                remember(&mut depths, alloc, &row.legacy, below)?;
                new += 1;
            }
            Placing::Faulty { cause } => {
                return Ok(Planned::Faulty {
                    row: row.row,
                    cause,
                });
            }
        }
    }
    Ok(Planned::Fits { new })
}
