//! Why a command or a query is refused.
ghost use Rattle.std.specs.Prelude.{◌≡◌, [], ◌∷◌, Some, IfOk, is_some};
ghost use Rattle.std.specs.Result.{result_err};
ghost use Rattle.desk_core.specs.Refusals.{first_that_holds, known_container as checks_container, refusal_name};
ghost use Rattle.desk_core.specs.Refusals.{refusal_number};

/// A refusal. The variants are in the order of their numbers.
#[derive(Debug, Clone, Copy, PartialEq, Eq)]
pub enum Refusal {
    /// The unit, or the parent that is named, is not known.
    UnknownUnit,
    /// No such ticket was given.
    UnknownTicket,
    /// No such container is known.
    UnknownContainer,
    /// The ticket's last day is before today.
    TicketExpired,
    /// The container is not known, or not open to the reader today.
    NotAvailable,
    /// An order of this ticket for the container waits or is out.
    AlreadyOrdered,
    /// The ticket has placed as many orders today as it may, including cancelled ones.
    DailyLimit,
    /// Every seat is taken.
    NoSeatFree,
    /// The ticket already has a seat.
    AlreadySeated,
    /// The ticket has no seat.
    NotSeated,
    /// Containers are out with the ticket.
    HoldsContainers,
    /// No such order was placed.
    UnknownOrder,
    /// The order is no longer waiting.
    OrderNotWaiting,
    /// The container is on the shelf, or out.
    NotAtDesk,
    /// The first waiting order is another ticket's, or no order waits.
    NotFirst,
    /// As many containers are out with the ticket as the limit allows.
    HandsFull,
    /// The container is not out.
    NotIssued,
    /// The day to be opened is not after today.
    DayNotLater,
    /// A container is still out.
    StillIssued,
    /// The parent is the unit itself, or lies below it.
    IntoItself,
    /// A container that is out would no longer be open to its reader. It is the lowest such container.
    WithReader { container: u64 },
    /// The first faulty row of a file, and its lowest cause. Row 0 is the whole file, and row 1 its header.
    BadFile { row: u32, cause: u8 },
    /// A limit of the office is reached, or an import would exceed one.
    Full,
    /// There is no container to move.
    NothingToMove,
    /// A unit that moves would lie too deep, or one below it.
    TooDeep,
    /// No such run was made.
    UnknownRun,
    /// The name of the reader, or of the source, is not valid.
    BadName,
    /// The ticket has no permit for the unit.
    NoPermit,
}

impl Refusal {
    /// Its number, from 1 to 28.
    pub fn code(self) -> u32
        ensures { result ≡ refusal_number self }
    {
        match self {
            Refusal::UnknownUnit => 1,
            Refusal::UnknownTicket => 2,
            Refusal::UnknownContainer => 3,
            Refusal::TicketExpired => 4,
            Refusal::NotAvailable => 5,
            Refusal::AlreadyOrdered => 6,
            Refusal::DailyLimit => 7,
            Refusal::NoSeatFree => 8,
            Refusal::AlreadySeated => 9,
            Refusal::NotSeated => 10,
            Refusal::HoldsContainers => 11,
            Refusal::UnknownOrder => 12,
            Refusal::OrderNotWaiting => 13,
            Refusal::NotAtDesk => 14,
            Refusal::NotFirst => 15,
            Refusal::HandsFull => 16,
            Refusal::NotIssued => 17,
            Refusal::DayNotLater => 18,
            Refusal::StillIssued => 19,
            Refusal::IntoItself => 20,
            Refusal::WithReader { .. } => 21,
            Refusal::BadFile { .. } => 22,
            Refusal::Full => 23,
            Refusal::NothingToMove => 24,
            Refusal::TooDeep => 25,
            Refusal::UnknownRun => 26,
            Refusal::BadName => 27,
            Refusal::NoPermit => 28,
        }
    }

    /// Its name, as shown to whoever asked.
    pub fn name(self) -> &'static str
        ensures { result.now ≡ refusal_name self }
    {
        match self {
            Refusal::UnknownUnit => "UnknownUnit",
            Refusal::UnknownTicket => "UnknownTicket",
            Refusal::UnknownContainer => "UnknownContainer",
            Refusal::TicketExpired => "TicketExpired",
            Refusal::NotAvailable => "NotAvailable",
            Refusal::AlreadyOrdered => "AlreadyOrdered",
            Refusal::DailyLimit => "DailyLimit",
            Refusal::NoSeatFree => "NoSeatFree",
            Refusal::AlreadySeated => "AlreadySeated",
            Refusal::NotSeated => "NotSeated",
            Refusal::HoldsContainers => "HoldsContainers",
            Refusal::UnknownOrder => "UnknownOrder",
            Refusal::OrderNotWaiting => "OrderNotWaiting",
            Refusal::NotAtDesk => "NotAtDesk",
            Refusal::NotFirst => "NotFirst",
            Refusal::HandsFull => "HandsFull",
            Refusal::NotIssued => "NotIssued",
            Refusal::DayNotLater => "DayNotLater",
            Refusal::StillIssued => "StillIssued",
            Refusal::IntoItself => "IntoItself",
            Refusal::WithReader { .. } => "WithReader",
            Refusal::BadFile { .. } => "BadFile",
            Refusal::Full => "Full",
            Refusal::NothingToMove => "NothingToMove",
            Refusal::TooDeep => "TooDeep",
            Refusal::UnknownRun => "UnknownRun",
            Refusal::BadName => "BadName",
            Refusal::NoPermit => "NoPermit",
        }
    }
}

/// Returns what was found of a container. If nothing was found, refuses with `UnknownContainer`.
pub fn known_container<T>(found: Option<T>) -> Result<T, Refusal>
    ensures refused { result_err result ≡ first_that_holds (checks_container (is_some found) ∷ []) }
    ensures found { IfOk result (λ it. found ≡ Some it) }
{
    found.ok_or(Refusal::UnknownContainer)
}
