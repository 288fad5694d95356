//! Whether a key occurs in a list too often.
ghost use Rattle.std.specs.Prelude.{◌≡◌, ◌<◌, ◌≤◌, cond, length, slice_index_or};
ghost use Rattle.std.specs.List.Sorted.{IsSorted};
ghost use Rattle.std.specs.Ordering.{is_eq};
ghost use Rattle.desk_core.specs.KeyCounts.{key_occurs_more_than};

/// Whether a key occurs more than `most` times.
pub(crate) fn occurs_more_than<K: Ord + Copy + Drop>(mut keys: Vec<K>, most: u64) -> bool
    ensures { result ≡ key_occurs_more_than K.cmp most keys.items }
{
    keys.sort_unstable();
    runs_over(&keys, most)
}

/// The same for sorted keys, in which equal ones are adjacent.
fn runs_over<K: Ord + Copy>(keys: &[K], most: u64) -> bool
    ensures { IsSorted K.cmp keys.now → result ≡ key_occurs_more_than K.cmp most keys.now }
{
    let mut first = 0;
    for i in 0..keys.len() {
        first = first_alike(keys, first, i);
        if (i - first) as u64 >= most {
            return true;
        }
    }
    false
}

/// The start of the run of equal keys that contains the key at `i`. `first` is the start of the run of the key before
/// it.
fn first_alike<K: Ord>(keys: &[K], first: usize, i: usize) -> usize
    requires before { first ≤ i }
    requires within { i < length keys.now }
    ensures before { result ≤ i }
    ensures alike { (d : K) → result ≡ cond (is_eq (K.cmp (slice_index_or keys.now first d)
        (slice_index_or keys.now i d))) first i }
{
    if keys[first].cmp(&keys[i]).is_eq() {
        first
    } else {
        i
    }
}
