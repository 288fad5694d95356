//! The table of the routes. A path stands here, and nowhere else.

use crate::body_form::Form;
use office_core::Query;

/// A question about what has a number.
#[derive(Clone, Copy, Debug, Drop)]
pub enum Numbered {
    Aid,
    Page,
    RunSlip,
    ReaderOrders,
    Queue,
    ReaderPermits,
}

/// What a pattern of paths leads to.
#[derive(Clone, Copy, Debug, Drop)]
pub enum Leads {
    Asks(Query),
    /// The pattern's parameter is the number.
    AsksOf(Numbered),
    Run,
    Reshelve,
    /// The pattern's parameter is the source.
    Import,
    TakesForm(Form),
}

/// Each pattern of paths, as a router reads it, and what it leads to. A parameter, in braces, ends its pattern.
pub const TABLE: [(&str, Leads); 26] = [
    ("/public/fonds", Leads::Asks(Query::Fonds)),
    ("/public/aid/{unit}", Leads::AsksOf(Numbered::Aid)),
    ("/public/units/{unit}", Leads::AsksOf(Numbered::Page)),
    ("/public/orders", Leads::TakesForm(Form::Order)),
    ("/desk/runs/{run}", Leads::AsksOf(Numbered::RunSlip)),
    (
        "/desk/readers/{ticket}",
        Leads::AsksOf(Numbered::ReaderOrders),
    ),
    ("/desk/queue/{container}", Leads::AsksOf(Numbered::Queue)),
    (
        "/desk/permits/{ticket}",
        Leads::AsksOf(Numbered::ReaderPermits),
    ),
    ("/desk/issued", Leads::Asks(Query::IssuedNow)),
    ("/desk/import/{source}", Leads::Import),
    ("/desk/day", Leads::TakesForm(Form::OpenDay)),
    ("/desk/status", Leads::TakesForm(Form::SetStatus)),
    ("/desk/closure", Leads::TakesForm(Form::SetClosure)),
    ("/desk/move", Leads::TakesForm(Form::Move)),
    ("/desk/remove", Leads::TakesForm(Form::Remove)),
    ("/desk/register", Leads::TakesForm(Form::Register)),
    ("/desk/renew", Leads::TakesForm(Form::Renew)),
    ("/desk/seat", Leads::TakesForm(Form::TakeSeat)),
    ("/desk/leave", Leads::TakesForm(Form::LeaveSeat)),
    ("/desk/cancel", Leads::TakesForm(Form::Cancel)),
    ("/desk/run", Leads::Run),
    ("/desk/reshelve", Leads::Reshelve),
    ("/desk/issue", Leads::TakesForm(Form::Issue)),
    ("/desk/return", Leads::TakesForm(Form::Return)),
    ("/desk/permit", Leads::TakesForm(Form::Permit)),
    ("/desk/revoke", Leads::TakesForm(Form::Revoke)),
];
