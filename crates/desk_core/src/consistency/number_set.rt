//! A set of numbers with fast look-up.
ghost use Rattle.std.specs.Prelude.{◌≡◌, ℕ, nat_eq};
ghost use Rattle.std.specs.List.{list_any};

use std::marker::Model;

/// Numbers. Their model is an ascending list.
#[derive(Drop)]
pub struct Numbers {
    numbers: Vec<u64>,
}

impl Model for Numbers {
    ghost use Rattle.std.specs.Prelude.{ℕ, List};
    ghost use Rattle.std.specs.List.Sorted.{IsNonDecreasing};

    ghost Value = { List ℕ };

    ghost view = { λ n. n.numbers.items };

    ghost invariant = { λ n. IsNonDecreasing n.numbers.items };
}

impl Numbers {
    /// The set of these numbers, which may come in any order.
    pub fn sorted(mut numbers: Vec<u64>) -> Numbers
        ensures { (n : ℕ) → list_any (nat_eq n) result ≡ list_any (nat_eq n) numbers.items }
    {
        numbers.sort_unstable();
        Numbers { numbers }
    }

    /// Whether the number is one of these.
    pub(crate) fn contains(&self, number: u64) -> bool
        ensures { result ≡ list_any (nat_eq number) self.now }
    {
        self.numbers.binary_search(&number).is_ok()
    }
}
