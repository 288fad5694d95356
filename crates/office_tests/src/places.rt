//! The rows of places in the tables, over links and over nested sets.

use crate::calls::{Said, Step, goes};
use crate::migration::rows_of;
use crate::offices::{FONDS, in_memory};
use catalogue_store::{LinkPlaces, Places};
use nested_sets::SpanPlaces;
use std::alloc::Global;
use std::process::Abort;
use std::test::Fail;

/// The calls after the import of a fonds with a series below it, and the rows afterwards: unit, parent and place for
/// links; unit, first and second number for nested sets.
#[derive(Clone, Copy)]
struct Case {
    said: &'static [Step],
    links: &'static str,
    spans: &'static str,
}

const TAKEN_IN: Step = (
    Said::Import(FONDS),
    "{\"changed\":0,\"new\":2,\"remarks\":[{\"kind\":2,\"row\":2}],\"same\":0,\"translations\":0}",
);

const TO_THE_TOP: Step = (Said::Move(2, None), "{\"unit\":2}");

const BACK: Step = (Said::Move(2, Some(1)), "{\"unit\":2}");

const BELOW_ITS_CHILD: Step = (
    Said::Move(1, Some(2)),
    "{\"code\":20,\"refused\":\"IntoItself\"}",
);

const BELOW_ITSELF: Step = (
    Said::Move(1, Some(1)),
    "{\"code\":20,\"refused\":\"IntoItself\"}",
);

const REMOVED: Step = (Said::Remove(1), "{\"units\":2}");

const AS_IT_CAME: Case = Case {
    said: &[],
    links: " 1 - 1\n 2 1 1\n",
    spans: " 1 1 4\n 2 2 3\n",
};

const CASES: [Case; 6] = [
    AS_IT_CAME,
    Case {
        said: &[TO_THE_TOP],
        links: " 1 - 1\n 2 - 2\n",
        spans: " 1 1 2\n 2 3 4\n",
    },
    Case {
        said: &[TO_THE_TOP, BACK],
        ..AS_IT_CAME
    },
    Case {
        said: &[BELOW_ITS_CHILD, BELOW_ITSELF],
        ..AS_IT_CAME
    },
    Case {
        said: &[REMOVED],
        links: "",
        spans: "",
    },
    Case {
        said: &[REMOVED, TAKEN_IN],
        links: " 3 - 1\n 4 3 1\n",
        spans: " 3 1 4\n 4 2 3\n",
    },
];

/// The rows of an office after these calls.
fn rows_after<P: Places>(
    rt: &impl Abort,
    alloc: Global,
    said: &[Step],
    sql: &str,
) -> Result<String, Fail> {
    let mut office = in_memory::<P>(alloc)?;
    let gone = match goes(rt, alloc, &mut office, &[TAKEN_IN]) {
        Ok(()) => goes(rt, alloc, &mut office, said),
        Err(fail) => Err(fail),
    };
    let mut conn = office.into_connection();
    gone?;
    rows_of(alloc, &mut conn, sql, 3)
}

#[test]
fn places_in_the_tables(rt: HostRuntime) -> Result<(), Fail> {
    for case in CASES {
        let links = "SELECT id, parent, ord FROM link ORDER BY id";
        let found = rows_after::<LinkPlaces>(&rt, rt.alloc(), case.said, links)?;
        assert_eq!(rt; found.as_str(), case.links);
        let spans = "SELECT id, lft, rgt FROM span ORDER BY lft";
        let found = rows_after::<SpanPlaces>(&rt, rt.alloc(), case.said, spans)?;
        assert_eq!(rt; found.as_str(), case.spans);
    }
    Ok(())
}
