//! The loans of some containers, without a look at the orders that others are out with.

ghost use Rattle.std.specs.Prelude.{◌≡◌, IfOk, filter, find, nat_eq, option_map};
ghost use Rattle.std.specs.List.Sorted.{IsStrictlyIncreasing};
ghost use Rattle.desk_core.specs.DeskRows.{HoldingRow};
ghost use Rattle.office_tables.specs.Calls.{StoreAnswers};
ghost use Rattle.office_tables.specs.Premises.{◌within◌gives◌};
ghost use Rattle.desk_store.specs.Holdings.{is_one_of, issued_among as issued_among_of, line_of};
ghost use Rattle.desk_store.specs.Holdings.{lines_among as lines_among_of};
ghost use Rattle.desk_store.specs.Representation.{RepresentsDeskAlone, IsLegible};

use crate::container_orders::ContainerOrder;
use crate::loans::{HoldingLine, holding_lines, loans_of};
use crate::queues::find_place;
use isad_core::Number;
use office_tables::{StoreFault, Tables, Versioned};
use sqlite::Alter;
use std::alloc::{AllocError, Global};

/// Whether the container is one of these. They must be in ascending order, each once, for a binary search.
fn is_among(ascending: &[Number], container: Number) -> bool
    requires rise { IsStrictlyIncreasing ascending.now }
    ensures { result ≡ is_one_of container ascending.now }
{
    ascending.binary_search(&container).is_ok()
}

/// Those of these lines whose containers are among these. The containers must be in ascending order, each once.
fn kept_lines(
    alloc: Global,
    lines: &[HoldingLine],
    ascending: &[Number],
) -> Result<Vec<HoldingLine>, AllocError>
    requires rise { IsStrictlyIncreasing ascending.now }
    ensures { IfOk result (λ kept. kept.items ≡ filter (λ line. is_one_of line.container ascending.now) lines.now) }
{
    let mut kept = Vec::new(alloc);
    for line in lines {
        let line = *line;
        if is_among(ascending, line.container) {
            kept.push(line)?;
        }
    }
    Ok(kept)
}

/// The lines of those of these containers that are not on the shelf, by the rows of all that are not. The containers
/// must be in ascending order, each once.
fn lines_by_list<P: Versioned, S: Alter>(
    alloc: Global,
    tables: &mut Tables<P, S>,
    ascending: &[Number],
) -> Result<Vec<HoldingLine>, StoreFault>
    requires rise { IsStrictlyIncreasing ascending.now }
    ensures answers { StoreAnswers S.Store RepresentsDeskAlone tables.old tables.new result
        within IsLegible gives λ _ d lines. lines.items ≡ lines_among_of ascending.now d }
{
    let lines = holding_lines(alloc, tables)?;
    Ok(kept_lines(alloc, &lines, ascending)?)
}

/// The line of a container, or none if it is on the shelf. It is found by the container's number.
fn line_at<P: Versioned, S: Alter>(
    alloc: Global,
    tables: &mut Tables<P, S>,
    container: Number,
) -> Result<Option<HoldingLine>, StoreFault>
    ensures answers { StoreAnswers S.Store RepresentsDeskAlone tables.old tables.new result
        within IsLegible gives λ _ d line. line
        ≡ option_map line_of (find (λ (h : HoldingRow). nat_eq container h.container) d.holdings) }
{
    let Some(entry) = find_place(alloc, tables, container)? else {
        return Ok(None);
    };
    Ok(Some(HoldingLine {
        container,
        held_by: entry.held_by,
    }))
}

/// The lines of those of these containers that are not on the shelf. Each is found by the container's number. The
/// containers must be in ascending order, each once.
fn lines_by_number<P: Versioned, S: Alter>(
    alloc: Global,
    tables: &mut Tables<P, S>,
    ascending: &[Number],
) -> Result<Vec<HoldingLine>, StoreFault>
    requires rise { IsStrictlyIncreasing ascending.now }
    ensures answers { StoreAnswers S.Store RepresentsDeskAlone tables.old tables.new result
        within IsLegible gives λ _ d lines. lines.items ≡ lines_among_of ascending.now d }
{
    let mut lines = Vec::new(alloc);
    for container in ascending {
        if let Some(line) = line_at(alloc, tables, *container)? {
            lines.push(line)?;
        }
    }
    Ok(lines)
}

/// Of so many containers the lines are found one by one. That takes as long as reading the lines of some two hundred.
const FEW_CONTAINERS: usize = 32;

/// The lines of those of these containers that are not on the shelf. Those of a few containers are found by their
/// numbers; for many, all lines are read. The containers must be in ascending order, each once.
fn lines_among<P: Versioned, S: Alter>(
    alloc: Global,
    tables: &mut Tables<P, S>,
    ascending: &[Number],
) -> Result<Vec<HoldingLine>, StoreFault>
    requires rise { IsStrictlyIncreasing ascending.now }
    ensures answers { StoreAnswers S.Store RepresentsDeskAlone tables.old tables.new result
        within IsLegible gives λ _ d lines. lines.items ≡ lines_among_of ascending.now d }
{
    if ascending.len() > FEW_CONTAINERS {
        return lines_by_list(alloc, tables, ascending);
    }
    lines_by_number(alloc, tables, ascending)
}

/// Those of these containers that are with readers, as `issued` tells them. Only the orders that these are out with are
/// read. The containers must be in ascending order, each once.
pub fn issued_among<P: Versioned, S: Alter>(
    alloc: Global,
    tables: &mut Tables<P, S>,
    ascending: &[Number],
) -> Result<Vec<ContainerOrder>, StoreFault>
    requires rise { IsStrictlyIncreasing ascending.now }
    ensures answers { StoreAnswers S.Store RepresentsDeskAlone tables.old tables.new result
        within IsLegible gives λ _ d some. some.items ≡ issued_among_of ascending.now d }
{
    let lines = lines_among(alloc, tables, ascending)?;
    let loans = loans_of(alloc, tables, &lines)?;
    Ok(loans)
}
