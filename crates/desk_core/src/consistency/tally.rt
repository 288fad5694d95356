//! How often each number occurs in a list.
ghost use Rattle.std.specs.Prelude.{◌≡◌, ◌≤◌, ℕ, IfOk, nat_eq};
ghost use Rattle.std.specs.List.{count_by};
ghost use Rattle.desk_core.specs.Consistency.{times as times_of};

use std::alloc::{AllocError, Global};

/// How often each number up to a last one occurs in a list.
#[derive(Drop)]
pub(crate) struct Tally {
    pub(crate) counts: Vec<u64>,
}

impl Tally {
    /// Counts the numbers up to the last. Larger ones are ignored.
    pub(crate) fn of(alloc: Global, last: u64, numbers: &[u64]) -> Result<Tally, AllocError>
        ensures { IfOk result (λ tally. (n : ℕ)
            → n ≤ last → times_of tally n ≡ count_by (nat_eq n) numbers.now) }
    {
        let Some(slots) = last.checked_add(1) else {
            return Err(AllocError);
        };
        let mut counts: Vec<u64> = vec![in alloc; 0; slots as usize]?;
        for number in numbers {
            let at = *number as usize;
            if at < counts.len() {
                counts[at] += 1;
            }
        }
        Ok(Tally { counts })
    }

    /// How often the number was counted.
    pub(crate) fn times(&self, number: u64) -> u64
        ensures { result ≡ times_of self.now number }
    {
        self.counts.get(number as usize).copied().unwrap_or(0)
    }
}
