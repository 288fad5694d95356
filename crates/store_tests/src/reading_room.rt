//! Days in the reading room, by the desk's calls: their results and the rows in the tables.

use crate::desk::{add_order, day_after, register, show_candidates};
use crate::tests::{Query, new_office, show_rows};
use catalogue_store::{LinkPlaces, NewUnit, StoreFault, add_unit, commit};
use desk_core::{Place, slip_text};
use desk_store::{ContainerOrder, OrderState, end_order, queue, record_run, run, set_place};
use isad_core::{BoxKey, List, Number, Text, Values};
use office_tables::Tables;
use sqlite::{Alter, Connection};
use std::alloc::{AllocError, Global};
use std::array;
use std::process::Abort;
use std::test::Fail;

/// A description with one container and nothing else.
fn one_box(alloc: Global, name: &str, location: &str) -> Result<Values, AllocError> {
    let mut boxes = List::new(alloc);
    boxes.push(BoxKey {
        name: Text::new(alloc, name)?,
        location: Text::new(alloc, location)?,
        kind: Text::new(alloc, "")?,
    })?;
    Ok(Values {
        level: Text::new(alloc, "")?,
        texts: array::from_fn(|_| None),
        boxes,
    })
}

/// Adds a published top in a container of its own.
fn add_boxed<S: Alter>(
    alloc: Global,
    tables: &mut Tables<LinkPlaces, S>,
    id: u32,
    name: &str,
    location: &str,
) -> Result<(), StoreFault> {
    let values = one_box(alloc, name, location)?;
    let source = Text::new(alloc, "a")?;
    let legacy = Text(format!(in alloc; "{id}")?);
    let unit = NewUnit {
        id: Number::from(id),
        source: &source,
        legacy: &legacy,
        values: &values,
        draft: false,
    };
    add_unit(alloc, tables, None, &unit)
}

/// Containers 1 to 3 in two strongrooms, and Ann, with ticket 1.
pub(crate) fn furnish<S: Alter>(
    alloc: Global,
    tables: &mut Tables<LinkPlaces, S>,
    text: &mut String,
) -> Result<(), StoreFault> {
    add_boxed(alloc, tables, 1, "Box 1", "Strongroom 2")?;
    add_boxed(alloc, tables, 2, "Box 2", "Strongroom 1")?;
    add_boxed(alloc, tables, 3, "Box 3", "Strongroom 1")?;
    register(alloc, tables, "Ann", text)
}

/// Where a container is.
fn show_place(place: Place, text: &mut String) -> Result<(), StoreFault> {
    match place {
        Place::Shelf => text.push_str(" shelf")?,
        Place::Desk => text.push_str(" desk")?,
        Place::Out(order) => write!(text, " out {}", order.get())?,
    }
    Ok(())
}

/// Who waits for a container, and where it is.
fn show_queue<S: Alter>(
    alloc: Global,
    tables: &mut Tables<LinkPlaces, S>,
    container: Number,
    text: &mut String,
) -> Result<(), StoreFault> {
    let Some(known) = queue(alloc, tables, container)? else {
        text.push_str("unknown\n")?;
        return Ok(());
    };
    text.push_str(known.name.as_str())?;
    show_place(known.place, text)?;
    for waiting in known.waiting.as_slice() {
        let (order, ticket) = (waiting.order.get(), waiting.ticket.get());
        write!(text, " {order}:{ticket}")?;
    }
    text.push_str("\n")?;
    Ok(())
}

/// Records a run on the first day that brings these containers to the desk, and returns its number.
fn fetch<S: Alter>(
    tables: &mut Tables<LinkPlaces, S>,
    taken: &[ContainerOrder],
    text: &mut String,
) -> Result<(), StoreFault> {
    let run = record_run(tables, day_after(0)?, taken)?.map_or(0, |run| run.get());
    write!(text, "run {run}\n")?;
    Ok(())
}

/// The slip of a run.
fn show_slip<S: Alter>(
    alloc: Global,
    tables: &mut Tables<LinkPlaces, S>,
    number: Number,
    text: &mut String,
) -> Result<(), StoreFault> {
    let Some(brought) = run(alloc, tables, number)? else {
        text.push_str("no run\n")?;
        return Ok(());
    };
    let slip = slip_text(alloc, number.get(), brought.day, brought.lines.as_slice())?;
    for byte in &slip {
        text.push(char::from(*byte))?;
    }
    Ok(())
}

/// Issues a container for an order.
fn lend<S: Alter>(
    tables: &mut Tables<LinkPlaces, S>,
    container: u32,
    order: u32,
) -> Result<(), StoreFault> {
    end_order(tables, Number::from(order), OrderState::Out)?;
    set_place(
        tables,
        Number::from(container),
        Place::Out(Number::from(order)),
    )
}

/// Returns a container that was out with an order to the desk.
fn give_back<S: Alter>(
    tables: &mut Tables<LinkPlaces, S>,
    container: u32,
    order: u32,
) -> Result<(), StoreFault> {
    end_order(tables, Number::from(order), OrderState::Done)?;
    set_place(tables, Number::from(container), Place::Desk)
}

/// Two orders wait for container 1. A run brings it; it is issued for the first and, once returned, waits for the
/// second.
fn lent_in_turn<S: Alter>(
    alloc: Global,
    tables: &mut Tables<LinkPlaces, S>,
    text: &mut String,
) -> Result<(), StoreFault> {
    place_two(alloc, tables, text)?;
    show_candidates(alloc, tables, text)?;
    fetch(tables, &[ordered(1)], text)?;
    set_place(tables, Number::from(1), Place::Desk)?;
    show_queue(alloc, tables, Number::from(1), text)?;
    lend(tables, 1, 1)?;
    show_queue(alloc, tables, Number::from(1), text)?;
    give_back(tables, 1, 1)?;
    show_queue(alloc, tables, Number::from(1), text)
}

/// An order with Ann's ticket: order 1 for container 1, order 2 for container 2, and so on.
fn ordered(number: u32) -> ContainerOrder {
    ContainerOrder {
        container: Number::from(number),
        order: Number::from(number),
        ticket: Number::from(1),
    }
}

/// Ann and Bob order container 1.
fn place_two<S: Alter>(
    alloc: Global,
    tables: &mut Tables<LinkPlaces, S>,
    text: &mut String,
) -> Result<(), StoreFault> {
    furnish(alloc, tables, text)?;
    register(alloc, tables, "Bob", text)?;
    add_order(tables, 1, 1, 1, 0)?;
    add_order(tables, 2, 2, 1, 0)
}

/// Ann orders containers 1, 2 and 3.
fn place_three<S: Alter>(
    alloc: Global,
    tables: &mut Tables<LinkPlaces, S>,
    text: &mut String,
) -> Result<(), StoreFault> {
    furnish(alloc, tables, text)?;
    add_order(tables, 1, 1, 1, 0)?;
    add_order(tables, 2, 1, 2, 0)?;
    add_order(tables, 3, 1, 3, 0)
}

/// The first run takes two of three containers, the second the last; each with its slip.
fn fetched_in_two_runs<S: Alter>(
    alloc: Global,
    tables: &mut Tables<LinkPlaces, S>,
    text: &mut String,
) -> Result<(), StoreFault> {
    place_three(alloc, tables, text)?;
    show_candidates(alloc, tables, text)?;
    fetch(tables, &[ordered(1), ordered(2)], text)?;
    set_place(tables, Number::from(1), Place::Desk)?;
    set_place(tables, Number::from(2), Place::Desk)?;
    show_candidates(alloc, tables, text)?;
    fetch(tables, &[ordered(3)], text)?;
    show_slip(alloc, tables, Number::from(1), text)?;
    show_slip(alloc, tables, Number::from(2), text)?;
    show_slip(alloc, tables, Number::from(3), text)
}

/// A day in the reading room of a new office.
#[derive(Clone, Copy)]
enum Visit {
    Lend,
    Fetch,
}

/// The results of the calls of that day.
fn carry_out<S: Alter>(
    alloc: Global,
    tables: &mut Tables<LinkPlaces, S>,
    visit: Visit,
    text: &mut String,
) -> Result<(), StoreFault> {
    match visit {
        Visit::Lend => lent_in_turn(alloc, tables, text),
        Visit::Fetch => fetched_in_two_runs(alloc, tables, text),
    }
}

/// Spends that day in a new office, and commits what its calls did.
fn spend<S: Alter + Drop>(
    alloc: Global,
    conn: Connection<S>,
    visit: Visit,
    text: &mut String,
) -> Result<Connection<S>, StoreFault> {
    let mut tables = new_office::<LinkPlaces, S>(alloc, conn)?;
    let outcome = carry_out(alloc, &mut tables, visit, text);
    let mut conn = tables.into_connection();
    outcome?;
    commit(&mut conn)?;
    Ok(conn)
}

/// A day, the expected results of its calls, and the queries and rows expected afterwards.
type Case = (Visit, &'static str, &'static [Query], &'static str);

const ORDERS: Query = ("SELECT id, container, state FROM orders ORDER BY id", 3);

const HOLDINGS: Query = (
    "SELECT container, place, held_by FROM holding ORDER BY container",
    3,
);

const LINES: Query = (
    "SELECT run, container, order_no, ticket FROM run_line ORDER BY run, container",
    4,
);

const DAYS: [Case; 2] = [
    (
        Visit::Lend,
        "1\n2\n1 1 1\nrun 1\nBox 1 desk 1:1 2:2\nBox 1 out 1 2:2\nBox 1 desk 2:2\n",
        &[ORDERS, HOLDINGS],
        " 1 1 3\n 2 1 1\n 1 1 -\n",
    ),
    (
        Visit::Fetch,
        "1\n1 1 1\n2 2 1\n3 3 1\nrun 1\n3 3 1\nrun 2\n\
         Run 1  2024-03-01\n\
         Strongroom 1         Box 2                 2        2       1\n\
         Strongroom 2         Box 1                 1        1       1\n\
         Run 2  2024-03-01\n\
         Strongroom 1         Box 3                 3        3       1\n\
         no run\n",
        &[LINES],
        " 1 1 1 1\n 1 2 2 1\n 2 3 3 1\n",
    ),
];

/// The rows of these queries.
fn rows_of<S: Alter>(
    alloc: Global,
    conn: &mut Connection<S>,
    queries: &[Query],
) -> Result<String, Fail> {
    let mut text = String::new(alloc);
    for query in queries {
        show_rows(&mut text, conn, *query)?;
    }
    Ok(text)
}

#[test]
fn days_in_the_reading_room(rt: HostRuntime) -> Result<(), Fail> {
    for &(visit, said, queries, kept) in &DAYS {
        let mut text = String::new(rt.alloc());
        let conn = Connection::open_in_memory(rt.alloc())?;
        let mut conn = spend(rt.alloc(), conn, visit, &mut text)?;
        assert_eq!(rt; text.as_str(), said);
        let rows = rows_of(rt.alloc(), &mut conn, queries)?;
        assert_eq!(rt; rows.as_str(), kept);
    }
    Ok(())
}
