//! Rows that are numbered from 1.
ghost use Rattle.std.specs.Prelude.{◌≡◌};
ghost use Rattle.isad_core.specs.Words.{are_numbered_from};
ghost use Rattle.desk_core.specs.Consistency.{nth_order};

use crate::consistency::rows::OrderRow;

/// Whether these are the numbers from 1 on, in order and without a gap.
pub(crate) fn are_numbered(numbers: &[u64]) -> bool
    ensures { result ≡ are_numbered_from (λ n. n) 1 numbers.now }
{
    let mut next = 1;
    for number in numbers {
        if *number != next {
            return false;
        }
        next += 1;
    }
    true
}

/// The order at this place, counted from 1, or none if there is none: the one with this number, if the orders are
/// numbered from 1.
pub(crate) fn nth_order(orders: &[OrderRow], number: u64) -> Option<OrderRow>
    ensures { result ≡ nth_order orders.now number }
{
    if number == 0 {
        return None;
    }
    orders.get((number - 1) as usize).copied()
}
