//! The catalogue's tables, in either version: what a clerk would see in them.

ghost use Rattle.std.specs.Prelude.{◌≡◌, OnOk};
ghost use Rattle.sqlite.specs.Held.{state};
ghost use Rattle.sqlite.specs.State.{HasCleanDisk};
ghost use Rattle.office_tables.specs.Schema.{no_schema};
ghost use Rattle.office_tables.specs.Step.{InTransaction};

use crate::mark_lines::{show_branch, show_marks, show_statuses, show_walk};
use catalogue_store::{
    LinkPlaces, NewUnit, OfficeRow, Places, StoreFault, add_unit, begin, branch_marks,
    contents_marks, create, known, move_unit, office_row, path_marks, remove_branch,
    replace_values, set_closure, set_status, values,
};
use desk_store::{create_desk, is_blank};
use isad_core::{BoxKey, Day, List, Number, Text, Values};
use nested_sets::SpanPlaces;
use office_tables::Tables;
use sqlite::{Alter, Connection, Row};
use std::alloc::{AllocError, Global};
use std::array;
use std::process::Abort;
use std::test::Fail;

/// An office with two seats, on the first of March 2024.
fn settings(alloc: Global) -> Result<OfficeRow, StoreFault> {
    let Some(day) = Day::from_number(19783) else {
        return Err(StoreFault::Schema);
    };
    Ok(OfficeRow {
        country: Text::new(alloc, "GB")?,
        repo: Text::new(alloc, "0999")?,
        seats: 2,
        daily: 3,
        hands: 1,
        run_size: 2,
        day,
        next_unit: Number::from(1),
    })
}

/// Begins a transaction and makes the tables of an office. There must be none yet.
fn open_office<P: Places, S: Alter>(
    alloc: Global,
    conn: &mut Connection<S>,
) -> Result<(), StoreFault>
    requires blank { HasCleanDisk (state S.Store conn.old) → (state S.Store conn.old).now.schema ≡ no_schema }
    ensures inside { OnOk result (InTransaction P.version (state S.Store conn.new)) }
{
    let row = settings(alloc)?;
    begin(conn)?;
    create_desk(conn)?;
    create::<P, S>(conn, &row)
}

/// Makes an office in a store that has nothing else.
pub(crate) fn make_office<P: Places, S: Alter>(
    alloc: Global,
    conn: &mut Connection<S>,
) -> Result<(), StoreFault>
    ensures inside { OnOk result (InTransaction P.version (state S.Store conn.new)) }
{
    if !is_blank(conn) {
        return Err(StoreFault::Schema);
    }
    open_office::<P, S>(alloc, conn)
}

/// The tables of a new office, in the transaction in which they were made.
pub(crate) fn new_office<P: Places, S: Alter + Drop>(
    alloc: Global,
    conn: Connection<S>,
) -> Result<Tables<P, S>, StoreFault> {
    let mut conn = conn;
    make_office::<P, S>(alloc, &mut conn)?;
    Ok(Tables::inside(conn))
}

/// A description by its level and title, a creator and a container.
pub(crate) type Described = (
    &'static str,
    &'static str,
    Option<&'static str>,
    Option<&'static str>,
);

const DOCKS: Described = ("Fonds", "Hull Dock Company", Some("Smith"), Some("Box 1"));

const MINUTES: Described = ("Series", "Minutes", None, None);

const PLANS: Described = ("Series", "Plans", None, Some("Box 2"));

pub(crate) const MAPS: Described = ("Fonds", "Maps", None, Some("Box 1"));

pub(crate) const LATER: Described = ("Collection", "Docks", None, Some("Box 2"));

fn optional(alloc: Global, text: Option<&str>) -> Result<Option<Text>, AllocError> {
    match text {
        Some(text) => Ok(Some(Text::new(alloc, text)?)),
        None => Ok(None),
    }
}

/// The texts by their places: a title, and the creator.
fn texts(
    alloc: Global,
    title: &str,
    creator: Option<&str>,
) -> Result<[Option<Text>; 25], AllocError> {
    let mut texts = array::from_fn(|_| None);
    texts[1] = Some(Text::new(alloc, title)?);
    texts[4] = optional(alloc, creator)?;
    Ok(texts)
}

/// One container of the first strongroom, or none.
fn boxes(alloc: Global, container: Option<&str>) -> Result<List<BoxKey>, AllocError> {
    let mut boxes = List::new(alloc);
    if let Some(name) = container {
        boxes.push(BoxKey {
            name: Text::new(alloc, name)?,
            location: Text::new(alloc, "Strongroom 1")?,
            kind: Text::new(alloc, "")?,
        })?;
    }
    Ok(boxes)
}

pub(crate) fn values_of(alloc: Global, unit: Described) -> Result<Values, AllocError> {
    let (level, title, creator, container) = unit;
    Ok(Values {
        level: Text::new(alloc, level)?,
        texts: texts(alloc, title, creator)?,
        boxes: boxes(alloc, container)?,
    })
}

/// Adds a published unit, which has the same number in source `a`.
pub(crate) fn add<P: Places, S: Alter>(
    alloc: Global,
    tables: &mut Tables<P, S>,
    id: u32,
    parent: Option<u32>,
    unit: Described,
) -> Result<(), StoreFault> {
    let values = values_of(alloc, unit)?;
    let source = Text::new(alloc, "a")?;
    let legacy = Text(format!(in alloc; "{id}")?);
    let unit = NewUnit {
        id: Number::from(id),
        source: &source,
        legacy: &legacy,
        values: &values,
        draft: false,
    };
    add_unit(alloc, tables, parent.map(Number::from), &unit)
}

/// Unit 1, a fonds in Box 1, with unit 2 below it.
pub(crate) fn two_units<P: Places, S: Alter>(
    alloc: Global,
    tables: &mut Tables<P, S>,
) -> Result<(), StoreFault> {
    add(alloc, tables, 1, None, DOCKS)?;
    add(alloc, tables, 2, Some(1), MINUTES)
}

/// The same, with unit 3, in Box 2, also below unit 1, and unit 4, in Box 1, at the top.
pub(crate) fn four_units<P: Places, S: Alter>(
    alloc: Global,
    tables: &mut Tables<P, S>,
) -> Result<(), StoreFault> {
    two_units(alloc, tables)?;
    add(alloc, tables, 3, Some(1), PLANS)?;
    add(alloc, tables, 4, None, MAPS)
}

/// Unit 2 is moved.
fn move_second<P: Places, S: Alter>(
    alloc: Global,
    tables: &mut Tables<P, S>,
    parent: Option<u32>,
) -> Result<(), StoreFault> {
    move_unit(alloc, tables, Number::from(2), parent.map(Number::from))
}

/// Unit 2 is moved to the top and back.
fn moved_back<P: Places, S: Alter>(
    alloc: Global,
    tables: &mut Tables<P, S>,
) -> Result<(), StoreFault> {
    two_units(alloc, tables)?;
    move_second(alloc, tables, None)?;
    move_second(alloc, tables, Some(1))
}

/// Unit 2 is moved to the top.
fn moved_up<P: Places, S: Alter>(
    alloc: Global,
    tables: &mut Tables<P, S>,
) -> Result<(), StoreFault> {
    two_units(alloc, tables)?;
    move_second(alloc, tables, None)
}

/// Unit 2 is moved below unit 4.
fn moved_below<P: Places, S: Alter>(
    alloc: Global,
    tables: &mut Tables<P, S>,
) -> Result<(), StoreFault> {
    four_units(alloc, tables)?;
    move_second(alloc, tables, Some(4))
}

/// Unit 1 is removed with all below it: how many units were removed.
fn remove_first<P: Places, S: Alter>(
    alloc: Global,
    tables: &mut Tables<P, S>,
    text: &mut String,
) -> Result<(), StoreFault> {
    four_units(alloc, tables)?;
    let removed = remove_branch(alloc, tables, Number::from(1))?;
    write!(text, "{removed}\n")?;
    Ok(())
}

/// Whether unit 1 has this description, and is in this container only.
fn is_described<P: Places, S: Alter>(
    alloc: Global,
    tables: &mut Tables<P, S>,
    wanted: &Values,
    container: u32,
) -> Result<bool, StoreFault> {
    let found = values(alloc, tables, Number::from(1))?;
    Ok(match &found {
        Some(unit) => unit.values == *wanted
            && unit.containers.as_slice() == [Number::from(container)].as_slice(),
        None => false,
    })
}

/// Unit 1 gets other values: whether it has the first ones before and the others afterwards.
fn revise_unit<P: Places, S: Alter>(
    alloc: Global,
    tables: &mut Tables<P, S>,
    text: &mut String,
) -> Result<(), StoreFault> {
    two_units(alloc, tables)?;
    let first = values_of(alloc, DOCKS)?;
    let before = is_described(alloc, tables, &first, 1)?;
    let later = values_of(alloc, LATER)?;
    replace_values(alloc, tables, Number::from(1), &later)?;
    let after = is_described(alloc, tables, &later, 2)?;
    write!(text, "{before} {after}\n")?;
    Ok(())
}

/// The marks of the units that Box 1 is attached to.
fn show_contents<P: Places, S: Alter>(
    alloc: Global,
    tables: &mut Tables<P, S>,
    text: &mut String,
) -> Result<(), StoreFault> {
    for attached in &contents_marks(alloc, tables, Number::from(1))? {
        show_statuses(text, &attached.path)?;
        show_branch(text, &attached.branch)?;
    }
    Ok(())
}

/// The marks of unit 2's path.
fn show_path<P: Places, S: Alter>(
    alloc: Global,
    tables: &mut Tables<P, S>,
    text: &mut String,
) -> Result<(), StoreFault> {
    show_marks(text, &path_marks(alloc, tables, Number::from(2))?)
}

/// Unit 2 is moved below unit 4, it and unit 3 are closed, and the marks of Box 1, of unit 2's path and of all units
/// are read.
fn read_marks<P: Places, S: Alter>(
    alloc: Global,
    tables: &mut Tables<P, S>,
    text: &mut String,
) -> Result<(), StoreFault> {
    moved_below(alloc, tables)?;
    set_closure(tables, Number::from(2), Day::from_number(21915))?;
    set_closure(tables, Number::from(3), Day::from_number(21916))?;
    show_contents(alloc, tables, text)?;
    show_path(alloc, tables, text)?;
    show_walk(text, &branch_marks(alloc, tables, None)?)
}

/// Unit 1 is in Box 1, and so is unit 4, which comes to lie below unit 3, a draft below unit 1, and units 5 and 6, both
/// below unit 2, which is closed and below unit 4.
fn lie_on_one_path<P: Places, S: Alter>(
    alloc: Global,
    tables: &mut Tables<P, S>,
) -> Result<(), StoreFault> {
    moved_below(alloc, tables)?;
    move_unit(alloc, tables, Number::from(4), Some(Number::from(3)))?;
    add(alloc, tables, 5, Some(2), MAPS)?;
    add(alloc, tables, 6, Some(2), MAPS)?;
    set_closure(tables, Number::from(2), Day::from_number(21915))?;
    set_status(alloc, tables, Number::from(3), true, false)?;
    Ok(())
}

/// The marks of the path and of the branch of each unit that Box 1 is attached to.
fn read_attached<P: Places, S: Alter>(
    alloc: Global,
    tables: &mut Tables<P, S>,
    text: &mut String,
) -> Result<(), StoreFault> {
    lie_on_one_path(alloc, tables)?;
    for attached in &contents_marks(alloc, tables, Number::from(1))? {
        show_marks(text, &attached.path)?;
        show_walk(text, &attached.branch)?;
    }
    Ok(())
}

/// Unit 2 is moved below unit 20, which is in Box 1, and the marks of unit 20's branch are read. Its numbers lie far
/// apart.
fn read_far_branch<P: Places, S: Alter>(
    alloc: Global,
    tables: &mut Tables<P, S>,
    text: &mut String,
) -> Result<(), StoreFault> {
    two_units(alloc, tables)?;
    add(alloc, tables, 20, None, MAPS)?;
    move_second(alloc, tables, Some(20))?;
    show_walk(text, &branch_marks(alloc, tables, Some(Number::from(20)))?)
}

/// Unit 1 and all below it become drafts, then unit 2 is published: how many units were set each time.
fn set<P: Places, S: Alter>(
    alloc: Global,
    tables: &mut Tables<P, S>,
    text: &mut String,
) -> Result<(), StoreFault> {
    four_units(alloc, tables)?;
    let branch = set_status(alloc, tables, Number::from(1), true, true)?;
    let one = set_status(alloc, tables, Number::from(2), false, false)?;
    write!(text, "{branch} {one}\n")?;
    Ok(())
}

/// Which unit has number 2 in this source.
fn known_as_two<P: Places, S: Alter>(
    alloc: Global,
    tables: &mut Tables<P, S>,
    source: &str,
) -> Result<Option<Number>, StoreFault> {
    let source = Text::new(alloc, source)?;
    let legacy = Text::new(alloc, "2")?;
    known(alloc, tables, &source, &legacy)
}

/// Which unit has number 2 in source `a`, whether none has it in source `b`, and the counts of the catalogue.
fn looked_up<P: Places, S: Alter>(
    alloc: Global,
    tables: &mut Tables<P, S>,
    text: &mut String,
) -> Result<(), StoreFault> {
    four_units(alloc, tables)?;
    let here = known_as_two(alloc, tables, "a")?.map_or(0, |unit| unit.get());
    let is_new = known_as_two(alloc, tables, "b")?.is_none();
    let office = &office_row(alloc, tables)?;
    let next = office.row.next_unit.get();
    let (units, containers) = (office.units, office.containers);
    write!(text, "{here} {is_new} {units} {containers} {next}\n")?;
    Ok(())
}

/// What is done in a new office.
#[derive(Clone, Copy)]
pub(crate) enum Act {
    Add,
    MoveUp,
    MoveBack,
    MoveBelow,
    Remove,
    Revise,
    Mark,
    Attach,
    MarkFar,
    Set,
    LookUp,
}

/// Does it, and writes the results of the calls.
fn carry_out<P: Places, S: Alter>(
    alloc: Global,
    tables: &mut Tables<P, S>,
    done: Act,
    text: &mut String,
) -> Result<(), StoreFault> {
    match done {
        Act::Add => four_units(alloc, tables),
        Act::MoveUp => moved_up(alloc, tables),
        Act::MoveBack => moved_back(alloc, tables),
        Act::MoveBelow => moved_below(alloc, tables),
        Act::Remove => remove_first(alloc, tables, text),
        Act::Revise => revise_unit(alloc, tables, text),
        Act::Mark => read_marks(alloc, tables, text),
        Act::Attach => read_attached(alloc, tables, text),
        Act::MarkFar => read_far_branch(alloc, tables, text),
        Act::Set => set(alloc, tables, text),
        Act::LookUp => looked_up(alloc, tables, text),
    }
}

/// A query, and how many columns its rows have.
pub(crate) type Query = (&'static str, usize);

/// The rows of a query, a line for each, with `-` for NULL.
pub(crate) fn show_rows<S: Alter>(
    text: &mut String,
    conn: &mut Connection<S>,
    query: Query,
) -> Result<(), Fail> {
    let (sql, width) = query;
    for row in &conn.query_all(sql, &[])? {
        show_row(text, row, width)?;
    }
    Ok(())
}

fn show_row(text: &mut String, row: &Row, width: usize) -> Result<(), Fail> {
    for place in 0..width {
        let number: Option<i64> = row.get(place)?;
        match number {
            Some(number) => write!(text, " {number}")?,
            None => text.push_str(" -")?,
        }
    }
    text.push_str("\n")?;
    Ok(())
}

/// The results of the calls in a new office, the rows of these queries, and then those of the places.
fn call_results<P: Places>(
    alloc: Global,
    done: Act,
    queries: &[Query],
    places: Query,
) -> Result<String, Fail> {
    let mut text = String::new(alloc);
    let mut tables = new_office::<P, _>(alloc, Connection::open_in_memory(alloc)?)?;
    let outcome = carry_out(alloc, &mut tables, done, &mut text);
    let mut conn = tables.into_connection();
    outcome?;
    for query in queries {
        show_rows(&mut text, &mut conn, *query)?;
    }
    show_rows(&mut text, &mut conn, places)?;
    Ok(text)
}

pub(crate) const LINKS: Query = ("SELECT id, parent, ord FROM link ORDER BY id", 3);

pub(crate) const SPANS: Query = ("SELECT id, lft, rgt FROM span ORDER BY id", 3);

/// What is expected, in either version.
#[derive(Clone, Copy)]
pub(crate) struct Case {
    pub(crate) done: Act,
    /// The queries that are then asked.
    pub(crate) queries: &'static [Query],
    /// The expected results of the calls and of these queries.
    pub(crate) told: &'static str,
    /// The rows of the places in version 1.
    pub(crate) links: &'static str,
    /// The rows of the places in version 2.
    pub(crate) spans: &'static str,
}

/// Checks that the results in this version are those expected in either, followed by these rows of the places.
fn see_over<P: Places>(
    rt: &impl Abort,
    alloc: Global,
    case: &Case,
    places: Query,
    rows: &str,
) -> Result<(), Fail> {
    let told = call_results::<P>(alloc, case.done, case.queries, places)?;
    let wanted = format!(in alloc; "{}{rows}", case.told)?;
    assert_eq!(rt; told.as_str(), wanted.as_str());
    Ok(())
}

fn see(rt: &impl Abort, alloc: Global, cases: &[Case]) -> Result<(), Fail> {
    for case in cases {
        see_over::<LinkPlaces>(rt, alloc, case, LINKS, case.links)?;
        see_over::<SpanPlaces>(rt, alloc, case, SPANS, case.spans)?;
    }
    Ok(())
}

pub(crate) const ELEMENTS: Query = ("SELECT unit, k FROM element ORDER BY unit, k", 2);

pub(crate) const HOUSING: Query = (
    "SELECT unit, ord, container FROM housing ORDER BY unit, ord",
    3,
);

/// Units 1 and 2 where they were added.
const TWO: Case = Case {
    done: Act::MoveBack,
    queries: &[],
    told: "",
    links: " 1 - 1\n 2 1 1\n",
    spans: " 1 1 4\n 2 2 3\n",
};

/// Four units where they were added.
pub(crate) const FOUR: Case = Case {
    done: Act::Add,
    queries: &[ELEMENTS, HOUSING],
    told: " 1 2\n 1 6\n 2 2\n 3 2\n 4 2\n\
           \u{20}1 1 1\n 3 1 2\n 4 1 1\n",
    links: " 1 - 1\n 2 1 1\n 3 1 2\n 4 - 2\n",
    spans: " 1 1 6\n 2 2 3\n 3 4 5\n 4 7 8\n",
};

/// Four units, the second of which was moved below the last.
const MOVED: Case = Case {
    done: Act::MoveBelow,
    queries: &[],
    told: "",
    links: " 1 - 1\n 2 4 1\n 3 1 1\n 4 - 2\n",
    spans: " 1 1 4\n 2 6 7\n 3 2 3\n 4 5 8\n",
};

#[test]
fn units_have_their_places(rt: HostRuntime) -> Result<(), Fail> {
    let up = Case {
        done: Act::MoveUp,
        links: " 1 - 1\n 2 - 2\n",
        spans: " 1 1 2\n 2 3 4\n",
        ..TWO
    };
    see(&rt, rt.alloc(), &[TWO, FOUR, MOVED, up])
}

const UNITS: Query = ("SELECT id, draft, until FROM unit ORDER BY id", 3);

const CONTAINERS: Query = ("SELECT id FROM container ORDER BY id", 1);

#[test]
fn a_branch_is_removed(rt: HostRuntime) -> Result<(), Fail> {
    let case = Case {
        done: Act::Remove,
        queries: &[
            UNITS,
            ("SELECT unit, k FROM element", 2),
            ("SELECT unit, container FROM housing", 2),
            CONTAINERS,
        ],
        told: "3\n 4 0 -\n 4 2\n 4 1\n 1\n 2\n",
        links: " 4 - 1\n",
        spans: " 4 1 2\n",
    };
    see(&rt, rt.alloc(), &[case])
}

/// The marks that bear on units 1, 4, 5 and 6, for the sake of Box 1.
const ATTACHED: Case = Case {
    done: Act::Attach,
    queries: &[],
    told: " 1 true false 0\n\
           \u{20}1 true false 0 3 true true 0 4 true false 0 2 false false 21915 5 true false 0 6 true false 0\n\
           \u{20}1 0 11 3 1 10 4 2 9 2 3 8 5 4 5 6 6 7\n\
           \u{20}1 true false 0 3 true true 0 4 true false 0\n\
           \u{20}4 true false 0 2 false false 21915 5 true false 0 6 true false 0\n\
           \u{20}4 0 7 2 1 6 5 2 3 6 4 5\n\
           \u{20}1 true false 0 3 true true 0 4 true false 0 2 false false 21915 5 true false 0\n\
           \u{20}5 true false 0\n\
           \u{20}5 0 1\n\
           \u{20}1 true false 0 3 true true 0 4 true false 0 2 false false 21915 6 true false 0\n\
           \u{20}6 true false 0\n\
           \u{20}6 0 1\n",
    links: " 1 - 1\n 2 4 1\n 3 1 1\n 4 3 1\n 5 2 1\n 6 2 2\n",
    spans: " 1 1 12\n 2 4 9\n 3 2 11\n 4 3 10\n 5 5 6\n 6 7 8\n",
};

/// The marks of a branch whose numbers lie far apart.
const FAR: Case = Case {
    done: Act::MarkFar,
    queries: &[],
    told: " 20 true false 0 2 false false 0\n\
           \u{20}20 0 3 2 1 2\n",
    links: " 1 - 1\n 2 20 1\n 20 - 2\n",
    spans: " 1 1 2\n 2 4 5\n 20 3 6\n",
};

#[test]
fn units_are_described_and_marked(rt: HostRuntime) -> Result<(), Fail> {
    let cases: [Case; 6] = [
        Case {
            done: Act::Revise,
            told: "true true\n",
            ..TWO
        },
        Case {
            done: Act::Mark,
            queries: &[UNITS],
            told: " 1 false 0\n\
                   \u{20}1 false: 3 true false 21916\n\
                   \u{20}1 0 3 3 1 2\n\
                   \u{20}4 false 0\n\
                   \u{20}4 false: 2 false false 21915\n\
                   \u{20}4 0 3 2 1 2\n\
                   \u{20}4 true false 0 2 false false 21915\n\
                   \u{20}1 true false 0 3 true false 21916 4 true false 0 2 false false 21915\n\
                   \u{20}1 0 3 3 1 2 4 4 7 2 5 6\n\
                   \u{20}1 0 -\n 2 0 21915\n 3 0 21916\n 4 0 -\n",
            ..MOVED
        },
        ATTACHED,
        FAR,
        Case {
            done: Act::Set,
            queries: &[UNITS],
            told: "3 1\n 1 1 -\n 2 0 -\n 3 1 -\n 4 0 -\n",
            ..FOUR
        },
        Case {
            done: Act::LookUp,
            queries: &[],
            told: "2 true 4 2 5\n",
            ..FOUR
        },
    ];
    see(&rt, rt.alloc(), &cases)
}

const OFFICE: Query = (
    "SELECT one, version, seats, daily, hands, run_size, day, next_unit FROM office",
    8,
);

/// Both kinds of tables exist and are made again: whether each call blames the schema.
fn make_again<P: Places, S: Alter>(
    alloc: Global,
    conn: &mut Connection<S>,
    text: &mut String,
) -> Result<(), StoreFault> {
    let row = settings(alloc)?;
    let desk = create_desk(conn) == Err(StoreFault::Schema);
    let catalogue = create::<P, S>(conn, &row) == Err(StoreFault::Schema);
    write!(text, "{desk} {catalogue}\n")?;
    Ok(())
}

/// The same in a new office with two units, and then the office's row and the rows of the places.
fn told_again<P: Places>(alloc: Global, places: Query) -> Result<String, Fail> {
    let mut text = String::new(alloc);
    let mut tables = new_office::<P, _>(alloc, Connection::open_in_memory(alloc)?)?;
    let outcome = two_units(alloc, &mut tables);
    let mut conn = tables.into_connection();
    outcome?;
    make_again::<P, _>(alloc, &mut conn, &mut text)?;
    show_rows(&mut text, &mut conn, OFFICE)?;
    show_rows(&mut text, &mut conn, places)?;
    Ok(text)
}

/// The office's row has the number of its version.
#[test]
fn tables_are_made_once(rt: HostRuntime) -> Result<(), Fail> {
    let over_links = told_again::<LinkPlaces>(rt.alloc(), LINKS)?;
    assert_eq!(&rt;
        over_links.as_str(),
        "true true\n 1 1 2 3 1 2 19783 3\n 1 - 1\n 2 1 1\n"
    );
    let over_spans = told_again::<SpanPlaces>(rt.alloc(), SPANS)?;
    assert_eq!(&rt;
        over_spans.as_str(),
        "true true\n 1 2 2 3 1 2 19783 3\n 1 1 4\n 2 2 3\n"
    );
    Ok(())
}
