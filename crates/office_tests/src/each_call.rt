//! Each command and each question once, over links and over nested sets, in the bytes of its reply. The program opens
//! no office over links; whole days are in `days`.

use crate::calls::{Said, Step, goes};
use crate::offices::{BOXES, in_memory};
use catalogue_store::{LinkPlaces, Places};
use nested_sets::SpanPlaces;
use office_core::Query;
use std::alloc::Global;
use std::process::Abort;
use std::test::Fail;

const COMMANDS: [Step; 19] = [
    (Said::NextDay, "{\"day\":\"2024-03-02\"}"),
    (
        Said::Import(BOXES),
        "{\"changed\":0,\"new\":4,\"remarks\":[{\"kind\":2,\"row\":2},{\"kind\":2,\"row\":3},{\"kind\":2,\"row\":4},{\"kind\":2,\"row\":5}],\"same\":0,\"translations\":0}",
    ),
    (Said::Publish(1), "{\"units\":1}"),
    (Said::Reopen(1), "{\"unit\":1}"),
    (Said::Move(2, Some(1)), "{\"unit\":2}"),
    (Said::Remove(4), "{\"units\":1}"),
    (Said::Register, "{\"ticket\":1}"),
    (Said::Renew(1), "{\"ticket\":1}"),
    (
        Said::Permit(1, 1),
        "{\"ticket\":1,\"unit\":1,\"until\":\"2024-03-31\"}",
    ),
    (Said::Sit(1), "{\"seat\":1}"),
    (Said::Order(1, 1), "{\"order\":1}"),
    (Said::Order(1, 2), "{\"order\":2}"),
    (Said::Cancel(2), "{\"order\":2}"),
    (Said::Run, "{\"run\":1,\"taken\":1}"),
    (Said::Issue(1, 1), "{\"order\":1}"),
    (Said::Return(1), "{\"order\":1}"),
    (Said::Reshelve, "{\"containers\":[1]}"),
    (Said::Leave(1), "{\"seat\":1}"),
    (Said::Revoke(1, 1), "{\"unit\":1}"),
];

const QUESTIONS: [Step; 8] = [
    (
        Said::Ask(Query::Fonds),
        "1 GB 0999 A [-] Plans\n3 GB 0999 C [-] Maps\n",
    ),
    (
        Said::Ask(Query::Aid { unit: 1 }),
        "GB 0999 A [-] Plans\n  Container 1: Box 1\n  GB 0999 A/B [-] Minutes\n    Container 2: Box 2\n",
    ),
    (
        Said::Ask(Query::Page { unit: 1 }),
        "GB 0999 A [-] Plans\n  Container 1: Box 1\n  Unit 2: GB 0999 A/B [-] Minutes\n",
    ),
    (
        Said::Ask(Query::ReaderOrders { ticket: 1 }),
        "{\"name\":\"Ann\",\"orders\":[],\"seat\":null,\"ticket\":1,\"until\":\"2024-03-31\"}",
    ),
    (
        Said::Ask(Query::Queue { container: 1 }),
        "{\"container\":1,\"name\":\"Box 1\",\"out\":null,\"place\":\"shelf\",\"waiting\":[]}",
    ),
    (
        Said::Ask(Query::RunSlip { run: 1 }),
        "Run 1  2024-03-02\nStrongroom 2         Box 1                 1        1       1\n",
    ),
    (Said::Ask(Query::IssuedNow), "[]"),
    (Said::Ask(Query::ReaderPermits { ticket: 1 }), "[]"),
];

fn each_goes<P: Places>(rt: &impl Abort, alloc: Global) -> Result<(), Fail> {
    let mut office = in_memory::<P>(alloc)?;
    let gone = match goes(rt, alloc, &mut office, &COMMANDS) {
        Ok(()) => goes(rt, alloc, &mut office, &QUESTIONS),
        Err(fail) => Err(fail),
    };
    let _ = office.into_connection();
    gone
}

#[test]
fn each_call_over_links(rt: HostRuntime) -> Result<(), Fail> {
    each_goes::<LinkPlaces>(&rt, rt.alloc())
}

#[test]
fn each_call_over_spans(rt: HostRuntime) -> Result<(), Fail> {
    each_goes::<SpanPlaces>(&rt, rt.alloc())
}
