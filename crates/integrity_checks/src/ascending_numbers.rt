//! Numbers in ascending order.

ghost use Rattle.std.specs.Prelude.{◌≡◌};
ghost use Rattle.std.specs.List.Sorted.{IsPermutation};
ghost use Rattle.isad_core.specs.Words.{stands};
ghost use Rattle.catalogue_core.specs.CatalogueCauses.{all_stand_in};

use isad_core::Number;
use std::marker::Model;

/// Numbers in ascending order, perhaps with repetitions. Contracts see them as a list.
#[derive(Drop)]
pub(crate) struct Ascending {
    numbers: Vec<Number>,
}

impl Model for Ascending {
    ghost use Rattle.std.specs.Prelude.{ℕ, List};
    ghost use Rattle.std.specs.List.Sorted.{IsNonDecreasing};

    ghost Value = { List ℕ };

    ghost view = { λ n. n.numbers.items };

    ghost invariant = { λ n. IsNonDecreasing n.numbers.items };
}

impl Ascending {
    /// Sorts these numbers, which may be in any order and may occur twice.
    pub(crate) fn sorted(mut numbers: Vec<Number>) -> Ascending
        ensures { IsPermutation numbers.items result }
    {
        numbers.sort_unstable();
        Ascending { numbers }
    }

    /// The numbers, in ascending order.
    pub(crate) fn as_slice(&self) -> &[Number]
        ensures { result.now ≡ self.now }
    {
        &self.numbers
    }

    /// Whether the number is one of these.
    pub(crate) fn contains(&self, number: Number) -> bool
        ensures { result ≡ stands number self.now }
    {
        self.numbers.binary_search(&number).is_ok()
    }

    /// Whether each of the others is one of these.
    pub(crate) fn contains_all(&self, others: &[Number]) -> bool
        ensures { result ≡ all_stand_in self.now others.now }
    {
        others.iter().all(|number| self.contains(*number))
    }
}
