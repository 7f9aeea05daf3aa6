//! Counts of numbers that rise, by halving.

ghost use Rattle.std.specs.Prelude.{◌≡◌, ◌+◌, nat_lt, nat_le};
ghost use Rattle.std.specs.List.Sorted.{IsNonDecreasing};
ghost use Rattle.gq_picture.specs.Columns.{below};

/// How many of the numbers, which rise, are below this one.
pub fn below(numbers: &[usize], n: usize) -> usize
    requires { IsNonDecreasing numbers.now }
    ensures { result ≡ below n numbers.now }
{
    numbers.partition_point(
        |x: &usize| -> bool
            ensures { result ≡ nat_lt x.now n }
        { *x < n },
    )
}

/// How many of the numbers are up to this one.
pub fn up_to(numbers: &[usize], n: usize) -> usize
    requires { IsNonDecreasing numbers.now }
    ensures { result ≡ below (n + 1) numbers.now }
{
    numbers.partition_point(
        |x: &usize| -> bool
            ensures { result ≡ nat_le x.now n }
        { *x <= n },
    )
}
