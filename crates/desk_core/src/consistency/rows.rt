//! The desk's rows, as they were read.

/// A seat that is taken.
#[derive(Clone, Copy, Debug, PartialEq, Eq)]
pub struct SeatRow {
    pub seat: u64,
    pub ticket: u64,
}

/// An order.
#[derive(Clone, Copy, Debug, PartialEq, Eq)]
pub struct OrderRow {
    pub id: u64,
    pub ticket: u64,
    pub container: u64,
    /// The number of the day on which it was placed.
    pub day: i64,
    /// 1 waiting, 2 out, 3 done, 4 cancelled.
    pub state: u64,
}

/// The place of a container that is not on the shelf.
#[derive(Clone, Copy, Debug, PartialEq, Eq)]
pub struct HoldingRow {
    pub container: u64,
    /// 1 at the desk, 2 out.
    pub place: u64,
    /// The order that it is out with.
    pub held_by: Option<u64>,
}

/// A run.
#[derive(Clone, Copy, Debug, PartialEq, Eq)]
pub struct RunRow {
    pub id: u64,
    pub day: i64,
}

/// A line of a run: a container that the run brought, with its order and its ticket.
#[derive(Clone, Copy, Debug, PartialEq, Eq)]
pub struct RunLineRow {
    pub run: u64,
    pub container: u64,
    pub order_no: u64,
    pub ticket: u64,
}

/// A permit.
#[derive(Clone, Copy, Debug, PartialEq, Eq)]
pub struct PermitRow {
    pub ticket: u64,
    pub unit: u64,
    /// Its last day.
    pub until: i64,
}
