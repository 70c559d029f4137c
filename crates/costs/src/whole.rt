// One place of a cost: arithmetic on 64-bit whole numbers that is exact up to 2 to the 62nd and free past it.
// Wrapping operations, since saturating ones more than double the time of a plan.
ghost use Rattle.std.specs.Prelude.{◌≡◌, ◌+◌, ◌*◌, ◌≤◌, pos, ◌+ℤ◌, ◌*ℤ◌, neg_ℤ, unsigned_abs};
ghost use Rattle.limits.specs.Numbers.{exact_size};

pub fn sum_of(a: i64, b: i64) -> i64
    ensures { unsigned_abs a + unsigned_abs b ≤ exact_size → result ≡ a +ℤ b }
{
    a.wrapping_add(b)
}

pub fn negative_of(a: i64) -> i64
    ensures { unsigned_abs a ≤ exact_size → result ≡ neg_ℤ a }
{
    a.wrapping_neg()
}

pub fn multiple_of(a: i64, n: u64) -> i64
    ensures { n * unsigned_abs a ≤ exact_size → result ≡ pos n *ℤ a }
{
    n.cast_signed().wrapping_mul(a)
}
