//! An office is migrated from version 1 to version 2, and answers as before.

use crate::adopted::open_again;
use crate::calls::{Said, Step, goes};
use crate::migrated_tables::fault_of;
use crate::offices::{BOXES, FONDS, in_memory};
use catalogue_store::LinkPlaces;
use nested_sets::SpanPlaces;
use office::Office;
use office_core::Query;
use sqlite::{Alter, Connection, MemStore, Row};
use std::alloc::Global;
use std::process::Abort;
use std::test::Fail;

/// The calls over links; the questions that are asked then, and again over nested sets; the calls over nested sets; and
/// the rows of the places at the end.
#[derive(Clone, Copy)]
struct Case {
    before: &'static [Step],
    asked: &'static [Step],
    after: &'static [Step],
    spans: &'static str,
}

/// Two units below a top, each with one below it, and another top.
const BRANCHES: &str =
    "legacyId,parentId,identifier,title,levelOfDescription,publicationStatus,physicalObjectName\n1,,HUL,Docks,Fonds,Published,Box 1\n2,1,1,Minutes,Series,Published,\n3,1,2,Plans,Series,Published,Box 2\n4,,W,Wharf,Fonds,Published,Box 3\n5,2,a,Letters,File,Published,\n6,3,b,Gates,File,Published,\n";

const BRANCHES_TAKEN_IN: Step = (
    Said::Import(BRANCHES),
    "{\"changed\":0,\"new\":6,\"remarks\":[{\"kind\":2,\"row\":2},{\"kind\":2,\"row\":5}],\"same\":0,\"translations\":0}",
);

const FIRST_TICKET: Step = (Said::Register, "{\"ticket\":1}");

const FIRST_ORDER: Step = (Said::Order(1, 1), "{\"order\":1}");

const FIRST_RUN: Step = (Said::Run, "{\"run\":1,\"taken\":1}");

const FIRST_WAITS: Step = (
    Said::Ask(Query::Queue { container: 1 }),
    "{\"container\":1,\"name\":\"Box 1\",\"out\":null,\"place\":\"shelf\",\"waiting\":[{\"order\":1,\"ticket\":1}]}",
);

const NOTHING_OUT: Step = (Said::Ask(Query::IssuedNow), "[]");

/// Four tops, the first of which was moved to the end.
const MOVED_TOP: Case = Case {
    before: &[
        (
            Said::Import(BOXES),
            "{\"changed\":0,\"new\":4,\"remarks\":[{\"kind\":2,\"row\":2},{\"kind\":2,\"row\":3},{\"kind\":2,\"row\":4},{\"kind\":2,\"row\":5}],\"same\":0,\"translations\":0}",
        ),
        FIRST_TICKET,
        FIRST_ORDER,
        (Said::Move(1, None), "{\"unit\":1}"),
    ],
    asked: &[
        (
            Said::Ask(Query::Fonds),
            "2 GB 0999 B [-] Minutes\n3 GB 0999 C [-] Maps\n4 GB 0999 D [-] Deeds\n1 GB 0999 A [-] Plans\n",
        ),
        (
            Said::Ask(Query::Aid { unit: 1 }),
            "GB 0999 A [-] Plans\n  Container 1: Box 1\n",
        ),
        FIRST_WAITS,
    ],
    after: &[FIRST_RUN],
    spans: " 2 1 2\n 3 3 4\n 4 5 6\n 1 7 8\n",
};

/// One of two units below a top was moved behind the other, and their top behind another top. It is closed, and a
/// reader with a permit for it waits for the box of its top.
const MOVED_CHILD: Case = Case {
    before: &[
        BRANCHES_TAKEN_IN,
        FIRST_TICKET,
        (Said::Close(2), "{\"unit\":2}"),
        (
            Said::Permit(1, 2),
            "{\"ticket\":1,\"unit\":2,\"until\":\"2024-03-31\"}",
        ),
        FIRST_ORDER,
        (Said::Move(2, Some(1)), "{\"unit\":2}"),
        (Said::Move(1, None), "{\"unit\":1}"),
    ],
    asked: &[
        (
            Said::Ask(Query::Fonds),
            "4 GB 0999 W [Fonds] Wharf\n1 GB 0999 HUL [Fonds] Docks\n",
        ),
        (
            Said::Ask(Query::Aid { unit: 1 }),
            "GB 0999 HUL [Fonds] Docks\n  Container 1: Box 1\n  GB 0999 HUL/2 [Series] Plans\n    Container 2: Box 2\n    GB 0999 HUL/2/b [File] Gates\n  GB 0999 HUL/1 [Series] closed until 2024-03-31\n",
        ),
        (
            Said::Ask(Query::Page { unit: 1 }),
            "GB 0999 HUL [Fonds] Docks\n  Container 1: Box 1\n  Unit 3: GB 0999 HUL/2 [Series] Plans\n  Unit 2: GB 0999 HUL/1 [Series] closed until 2024-03-31\n",
        ),
        (
            Said::Ask(Query::Page { unit: 6 }),
            "GB 0999 HUL/2/b [File] Gates\n  Container 2: Box 2 (from GB 0999 HUL/2)\n",
        ),
        FIRST_WAITS,
        (
            Said::Ask(Query::ReaderOrders { ticket: 1 }),
            "{\"name\":\"Ann\",\"orders\":[{\"container\":1,\"order\":1,\"state\":\"waiting\"}],\"seat\":null,\"ticket\":1,\"until\":\"2024-03-31\"}",
        ),
        (
            Said::Ask(Query::ReaderPermits { ticket: 1 }),
            "[{\"unit\":2,\"until\":\"2024-03-31\"}]",
        ),
        NOTHING_OUT,
    ],
    after: &[FIRST_RUN],
    spans: " 4 1 2\n 1 3 12\n 3 4 7\n 6 5 6\n 2 8 11\n 5 9 10\n",
};

/// A fonds and a series below it, as they were imported.
const AS_THEY_CAME: Case = Case {
    before: &[(
        Said::Import(FONDS),
        "{\"changed\":0,\"new\":2,\"remarks\":[{\"kind\":2,\"row\":2}],\"same\":0,\"translations\":0}",
    )],
    asked: &[(
        Said::Ask(Query::Aid { unit: 1 }),
        "GB 0999 HUL [Fonds] Hull Dock Company\n  GB 0999 HUL/1 [Series] Minutes\n",
    )],
    after: &[],
    spans: " 1 1 4\n 2 2 3\n",
};

const NO_UNITS: Case = Case {
    before: &[],
    asked: &[(Said::Ask(Query::Fonds), ""), NOTHING_OUT],
    after: &[],
    spans: "",
};

/// A file is imported into an office without units.
const NONE_BEFORE: Case = Case {
    before: &[],
    asked: &[NOTHING_OUT],
    after: &[BRANCHES_TAKEN_IN],
    spans: " 1 1 10\n 2 2 5\n 5 3 4\n 3 6 9\n 6 7 8\n 4 11 12\n",
};

/// Writes the numbers of a row, with a dash for NULL.
fn show_row(text: &mut String, row: &Row, width: usize) -> Result<(), Fail> {
    for place in 0..width {
        let number: Option<i64> = row.get(place)?;
        match number {
            Some(number) => write!(text, " {number}")?,
            None => text.push_str(" -")?,
        }
    }
    text.push_str("\n")?;
    Ok(())
}

/// The rows of a query.
pub(crate) fn rows_of<S: Alter>(
    alloc: Global,
    conn: &mut Connection<S>,
    sql: &str,
    width: usize,
) -> Result<String, Fail> {
    let mut text = String::new(alloc);
    for row in &conn.query_all(sql, &[])? {
        show_row(&mut text, row, width)?;
    }
    Ok(text)
}

/// Whether there is no table of links.
fn links_are_gone<S: Alter>(alloc: Global, conn: &mut Connection<S>) -> Result<bool, Fail> {
    let Err(error) = conn.query_all("SELECT id FROM link", &[]) else {
        return Ok(false);
    };
    let mut text = String::new(alloc);
    write!(text, "{error}")?;
    if text.as_str() == "no such table" {
        Ok(true)
    } else {
        Err(Fail::from(error))
    }
}

/// Checks that the tables are those of version 2, with these places.
pub(crate) fn has_spans<S: Alter>(
    rt: &impl Abort,
    alloc: Global,
    conn: &mut Connection<S>,
    spans: &str,
) -> Result<(), Fail> {
    let version = rows_of(alloc, conn, "SELECT version FROM office", 1)?;
    assert_eq!(rt; version.as_str(), " 2\n");
    let places = rows_of(alloc, conn, "SELECT id, lft, rgt FROM span ORDER BY lft", 3)?;
    assert_eq!(rt; places.as_str(), spans);
    let gone = links_are_gone(alloc, conn)?;
    assert!(rt; gone);
    Ok(())
}

/// Brings the office's tables to version 2, and opens them.
fn migrate(
    alloc: Global,
    office: Office<LinkPlaces, MemStore>,
) -> Result<Office<SpanPlaces, MemStore>, Fail> {
    let mut conn = office.into_connection();
    if let Some(fault) = fault_of(alloc, &mut conn) {
        return Err(Fail::from(fault));
    }
    let office = open_again::<SpanPlaces>(alloc, conn)?;
    Ok(office)
}

/// An office of version 1 after these calls.
fn office_of_links(
    rt: &impl Abort,
    alloc: Global,
    case: &Case,
) -> Result<Office<LinkPlaces, MemStore>, Fail> {
    let mut office = in_memory::<LinkPlaces>(alloc)?;
    match said_before(rt, alloc, &mut office, case) {
        Ok(()) => Ok(office),
        Err(fail) => {
            let _ = office.into_connection();
            Err(fail)
        }
    }
}

fn said_before<S: Alter>(
    rt: &impl Abort,
    alloc: Global,
    office: &mut Office<LinkPlaces, S>,
    case: &Case,
) -> Result<(), Fail> {
    goes(rt, alloc, office, case.before)?;
    goes(rt, alloc, office, case.asked)
}

fn said_after<S: Alter>(
    rt: &impl Abort,
    alloc: Global,
    office: &mut Office<SpanPlaces, S>,
    case: &Case,
) -> Result<(), Fail> {
    goes(rt, alloc, office, case.asked)?;
    goes(rt, alloc, office, case.after)
}

fn comes_over(rt: &impl Abort, alloc: Global, case: &Case) -> Result<(), Fail> {
    let old = office_of_links(rt, alloc, case)?;
    let mut office = migrate(alloc, old)?;
    let gone = said_after(rt, alloc, &mut office, case);
    let mut conn = office.into_connection();
    gone?;
    has_spans(rt, alloc, &mut conn, case.spans)
}

#[test]
fn an_office_comes_to_version_2(rt: HostRuntime) -> Result<(), Fail> {
    for case in [MOVED_TOP, MOVED_CHILD, AS_THEY_CAME, NO_UNITS, NONE_BEFORE] {
        comes_over(&rt, rt.alloc(), &case)?;
    }
    Ok(())
}
