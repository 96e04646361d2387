//! Numbers that do not fall, as a vector.
ghost use Rattle.std.specs.Prelude.{◌≡◌, ℕ, ◌+◌, ◌<◌, ltb, leb, eqb, vec_len, vec_capacity};
ghost use Rattle.std.specs.List.{count_by, sum_by};
ghost use Rattle.std.specs.List.Sorted.{IsNonDecreasing};

/// How many of the numbers are less than `bound`.
pub(crate) fn count_below(numbers: &[u64], bound: u64) -> usize
    requires { IsNonDecreasing numbers.now }
    ensures { result ≡ count_by (λ n. ltb n bound) numbers.now }
{
    numbers.partition_point(|number| *number < bound)
}

/// How many of the numbers are at most `bound`.
pub(crate) fn count_upto(numbers: &[u64], bound: u64) -> usize
    requires { IsNonDecreasing numbers.now }
    ensures { result ≡ count_by (λ n. leb n bound) numbers.now }
{
    numbers.partition_point(|number| *number <= bound)
}

/// Puts a number in its place, where there is room.
pub(crate) fn put(numbers: &mut Vec<u64>, number: u64)
    requires rising { IsNonDecreasing numbers.old.items }
    requires room { vec_len numbers.old < vec_capacity numbers.old }
    ensures rising { IsNonDecreasing numbers.new.items }
    ensures sums { (f : ℕ → ℕ) → sum_by f numbers.new.items ≡ sum_by f numbers.old.items + f number }
{
    let i = numbers.partition_point(|other| *other < number);
    match numbers.insert(i, number) {
        Ok(()) => {}
        Err(_) => unreachable!(),
    }
}

/// Takes a number out, once.
pub(crate) fn remove(numbers: &mut Vec<u64>, number: u64)
    requires rising { IsNonDecreasing numbers.old.items }
    requires there { 0 < count_by (eqb number) numbers.old.items }
    ensures rising { IsNonDecreasing numbers.new.items }
    ensures sums { (f : ℕ → ℕ) → sum_by f numbers.new.items + f number ≡ sum_by f numbers.old.items }
{
    match numbers.binary_search(&number) {
        Ok(i) => {
            numbers.remove(i);
        }
        Err(_) => unreachable!(),
    }
}
