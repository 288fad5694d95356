//! Numbers that a table can keep.

ghost use Rattle.std.specs.Prelude.{◌≡◌, ◌+◌, ◌^◌, ◌≤◌, Some, None, IfSome};
ghost use Rattle.isad_core.specs.Limits.{IsNumber};

use std::marker::Model;

/// The number of a unit, a container, a ticket, an order or a run, or a place: below 2^63, so that a table can keep it.
#[derive(Debug, Clone, Copy, PartialEq, Eq, PartialOrd, Ord, Drop)]
pub struct Number {
    value: u64,
}

impl Model for Number {
    ghost use Rattle.std.specs.Prelude.{ℕ};
    ghost use Rattle.isad_core.specs.Limits.{IsNumber};

    ghost Value = { ℕ };

    ghost view = { λ n. n.value };

    ghost invariant = { λ n. IsNumber n.value };

    ghost inverse = { λ n. record { value = n } };
}

impl Number {
    /// The number `n`. None if it is 2^63 or greater: nothing has such a number.
    pub fn of(n: u64) -> Option<Number>
        ensures same { IfSome result (λ number. number ≡ n) }
        ensures none { result ≡ None → 2 ^ 63 ≤ n }
        ensures some { IsNumber n → result ≡ Some n }
    {
        if n < 1 << 63 {
            Some(Number { value: n })
        } else {
            None
        }
    }

    /// The number as an integer, which is below 2^63.
    pub fn get(self) -> u64
        ensures same { result ≡ self }
        ensures small { IsNumber self }
    {
        self.value
    }

    /// The number that is greater by `n`. None if that is 2^63 or greater.
    pub fn plus(self, n: u64) -> Option<Number>
        ensures same { IfSome result (λ number. number ≡ self + n) }
        ensures none { result ≡ None → 2 ^ 63 ≤ self + n }
        ensures some { IsNumber (self + n) → result ≡ Some (self + n) }
    {
        Number::of(self.value.saturating_add(n))
    }
}

impl From<u32> for Number {
    ghost use Rattle.std.specs.Prelude.{◌≡◌};

    ghost from_gives = { λ n number. number ≡ n };

    fn from(n: u32) -> Number {
        Number {
            value: u64::from(n),
        }
    }
}
