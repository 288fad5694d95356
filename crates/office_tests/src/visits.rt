//! A command, a session and a question, as a caller makes them one after the other.

use crate::offices::{day_after, in_memory};
use headline::visits::{CommandVisit, QuestionVisit, SessionVisit, Visit, make_visits};
use http_desk::session_end::Ended;
use isad_core::Text;
use nested_sets::SpanPlaces;
use office_core::{Answer, Command, Query};
use std::alloc::Global;
use std::process::Abort;
use std::test::Fail;

const REQUEST: &str = "GET /desk/readers/1 HTTP/1.1\r\nHost: x\r\nConnection: close\r\n\r\n";

const ANN: &str =
    "{\"name\":\"Ann\",\"orders\":[],\"seat\":null,\"ticket\":1,\"until\":\"2024-03-31\"}";

type Peer<'a> = Visit<&'a [u8], Vec<u8>>;

/// Ann is registered, looked up by HTTP, and asked for.
fn visits_of_ann<'a>(alloc: Global) -> Result<Vec<Peer<'a>>, Fail> {
    let mut visits = Vec::new(alloc);
    visits.push(Visit::Command(CommandVisit {
        command: Command::Register {
            name: Text::new(alloc, "Ann")?,
            until: day_after(30)?,
        },
        told: None,
    }))?;
    visits.push(Visit::Session(SessionVisit {
        reader: REQUEST.as_bytes(),
        writer: Vec::new(alloc),
        ended: None,
    }))?;
    visits.push(Visit::Question(QuestionVisit {
        query: Query::ReaderOrders { ticket: 1 },
        told: None,
    }))?;
    Ok(visits)
}

/// What was told of Ann: by HTTP after the head, or by the call. Nothing is told of a command.
fn is_told(visit: &Peer<'_>) -> bool {
    match visit {
        Visit::Session(session) => {
            session.ended == Some(Ended::Closed)
                && session.writer.as_slice().ends_with(ANN.as_bytes())
        }
        Visit::Question(call) => match &call.told {
            Some(Ok(Answer::Json(json))) => json.as_slice() == ANN.as_bytes(),
            _ => false,
        },
        Visit::Command(call) => matches!(&call.told, Some(Ok(_))),
    }
}

#[test]
fn a_command_a_session_and_a_question(rt: HostRuntime) -> Result<(), Fail> {
    let alloc = rt.alloc();
    let mut visits = visits_of_ann(alloc)?;
    let mut office = in_memory::<SpanPlaces>(alloc)?;
    make_visits(alloc, &mut office, visits.as_mut_slice());
    let _ = office.into_connection();
    for visit in visits.as_slice() {
        assert!(rt; is_told(visit));
    }
    Ok(())
}
