//! Containers that are with readers.

ghost use Rattle.std.specs.Prelude.{◌≡◌, find, map, option_map, ⊤};
ghost use Rattle.std.specs.List.{list_any};
ghost use Rattle.desk_core.specs.DeskRows.{HoldingRow};
ghost use Rattle.office_tables.specs.Calls.{StoreAnswers};
ghost use Rattle.office_tables.specs.Premises.{◌when◌gives◌, ◌within◌gives◌};
ghost use Rattle.office_tables.specs.Schema as schema;
ghost use Rattle.office_tables.specs.Step.{Holds};
ghost use Rattle.office_tables.specs.TableStatements.{LooksUp};
ghost use Rattle.desk_store.specs.Holdings.{is_held, issued_of, loan_by, loans_in, ticket_of};
ghost use Rattle.desk_store.specs.Rows.{holding_cells, order_cells};
ghost use Rattle.desk_store.specs.Representation.{RepresentsDeskAlone, IsLegible};
ghost use Rattle.office_tables.specs.RowNumbers.{AreByNumber, AreCounted};

use crate::container_orders::ContainerOrder;
use isad_core::Number;
use office_tables::from_row::FromRow;
use office_tables::{
    StoreFault, Tables, Versioned, cell, find, find_one, number_at, number_or_null_at,
};
use sqlite::{Alter, Row};
use std::alloc::Global;

/// A container that is not on the shelf, as its row shows it.
#[derive(Debug, Clone, Copy, PartialEq, Eq, Drop)]
pub(crate) struct HoldingLine {
    pub container: Number,
    /// The order that it is out with, or none.
    pub held_by: Option<Number>,
}

impl FromRow for HoldingLine {
    ghost use Rattle.std.specs.Prelude.{pos, option_map, [], ◌∷◌, ⊤};
    ghost use Rattle.sqlite.specs.Values.{or_null};
    ghost use Rattle.sqlite.specs.declared.types.Value.TheVariants.{Int};

    ghost cells = { λ h. Int (pos h.container) ∷ or_null Int (option_map pos h.held_by) ∷ [] };

    ghost is_legible = { λ _. ⊤ };

    fn read(row: &Row) -> Result<HoldingLine, StoreFault> {
        Ok(HoldingLine {
            container: number_at(row, 0)?,
            held_by: number_or_null_at(row, 1)?,
        })
    }
}

/// The containers that are not on the shelf, in ascending order of their numbers. This reads the whole table, which has
/// a row for each of them.
pub(crate) fn holding_lines<P: Versioned, S: Alter>(
    alloc: Global,
    tables: &mut Tables<P, S>,
) -> Result<Vec<HoldingLine>, StoreFault>
    ensures { LooksUp S.Store (Holds schema.holding holding_cells) tables.old tables.new result
        when AreByNumber (λ h. h.container) gives λ xs found. found.items
        ≡ map (λ (h : HoldingRow). record { container = h.container; held_by = h.held_by }) xs }
{
    find(
        alloc,
        tables,
        "SELECT container, held_by FROM holding ORDER BY container",
        &[],
    )
}

/// The ticket of an order, or none if there is no such order. The order is found by its number.
fn find_ticket<P: Versioned, S: Alter>(
    alloc: Global,
    tables: &mut Tables<P, S>,
    order: Number,
) -> Result<Option<Number>, StoreFault>
    ensures { LooksUp S.Store (Holds schema.orders order_cells) tables.old tables.new result
        when AreCounted (λ o. o.id) gives λ xs found. found ≡ ticket_of xs order }
{
    find_one(
        alloc,
        tables,
        "SELECT ticket FROM orders WHERE id = ?1 ORDER BY id",
        &[cell(order)],
    )
}

/// The ticket that placed an order, or none if there is no such order.
fn holder_of<P: Versioned, S: Alter>(
    alloc: Global,
    tables: &mut Tables<P, S>,
    order: Number,
) -> Result<Option<Number>, StoreFault>
    ensures answers { StoreAnswers S.Store RepresentsDeskAlone tables.old tables.new result
        within IsLegible gives λ _ d ticket. ticket ≡ ticket_of d.orders order }
{
    find_ticket(alloc, tables, order)
}

/// The loan of the container in this line, with the order and the ticket that placed it, or none if the line has no
/// order or there is no such order.
fn loan_of<P: Versioned, S: Alter>(
    alloc: Global,
    tables: &mut Tables<P, S>,
    line: HoldingLine,
) -> Result<Option<ContainerOrder>, StoreFault>
    ensures answers { StoreAnswers S.Store RepresentsDeskAlone tables.old tables.new result
        within IsLegible gives λ _ d loan. loan ≡ loan_by d.orders line.container line.held_by }
{
    let Some(order) = line.held_by else {
        return Ok(None);
    };
    let Some(ticket) = holder_of(alloc, tables, order)? else {
        return Ok(None);
    };
    Ok(Some(ContainerOrder {
        container: line.container,
        order,
        ticket,
    }))
}

/// The loans of the containers in these lines, in the same order.
pub(crate) fn loans_of<P: Versioned, S: Alter>(
    alloc: Global,
    tables: &mut Tables<P, S>,
    lines: &[HoldingLine],
) -> Result<Vec<ContainerOrder>, StoreFault>
    ensures answers { StoreAnswers S.Store RepresentsDeskAlone tables.old tables.new result
        within IsLegible gives λ _ d loans. loans.items ≡ loans_in d lines.now }
{
    let mut loans = Vec::new(alloc);
    for line in lines {
        if let Some(loan) = loan_of(alloc, tables, *line)? {
            loans.push(loan)?;
        }
    }
    Ok(loans)
}

/// The containers that are with readers, in ascending order of their numbers, each with the order that it is out with
/// and the ticket that placed it. A row that names no order, or one that does not exist, is left out.
pub fn issued<P: Versioned, S: Alter>(
    alloc: Global,
    tables: &mut Tables<P, S>,
) -> Result<Vec<ContainerOrder>, StoreFault>
    ensures answers { StoreAnswers S.Store RepresentsDeskAlone tables.old tables.new result
        within IsLegible gives λ _ d all. all.items ≡ issued_of d }
{
    let lines = holding_lines(alloc, tables)?;
    let loans = loans_of(alloc, tables, &lines)?;
    Ok(loans)
}

/// The lowest container that is out with an order, or none. The rows behind its own are not read.
fn first_out<P: Versioned, S: Alter>(
    alloc: Global,
    tables: &mut Tables<P, S>,
) -> Result<Option<Number>, StoreFault>
    ensures { LooksUp S.Store (Holds schema.holding holding_cells) tables.old tables.new result
        when AreByNumber (λ h. h.container)
        gives λ xs first. first ≡ option_map (λ (h : HoldingRow). h.container) (find is_held xs) }
{
    find_one(
        alloc,
        tables,
        "SELECT container FROM holding WHERE held_by IS NOT NULL ORDER BY container LIMIT 1",
        &[],
    )
}

/// Whether a container is out with an order. Rows are read only up to the first such container.
pub fn is_some_out<P: Versioned, S: Alter>(
    alloc: Global,
    tables: &mut Tables<P, S>,
) -> Result<bool, StoreFault>
    ensures answers { StoreAnswers S.Store RepresentsDeskAlone tables.old tables.new result
        within IsLegible gives λ _ d yes. yes ≡ list_any is_held d.holdings }
{
    let first = first_out(alloc, tables)?;
    Ok(first.is_some())
}
