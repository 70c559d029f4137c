// The types of the numbers that stand in columns.
ghost use Rattle.std.specs.Prelude.{◌≡◌, ◌≢◌, ℕ, ◌<◌, ℤ, pos, IsTrue, MatchOption, unsigned_abs};
ghost use Rattle.std.specs.Int.{is_negative};
ghost use Rattle.std.proofs.Common.{rules};

pub trait Numeral: Copy {
    // The whole number that a value is.
    ghost number: { Self → ℤ };

    // How many bytes of a column are kept for the minus.
    ghost sign_width: { ℕ };

    // Whether the number is below 0, and its size.
    fn sign_and_size(self) -> (bool, u64)
        ensures negative { result.0 ≡ is_negative (number self) }
        ensures size { result.1 ≡ unsigned_abs (number self) };

    // The value whose number is this one, where the type has it.
    fn from_whole(z: i64) -> Option<Self>
        ensures { MatchOption result ((n : Self) → number n ≢ z) (λ n. number n ≡ z) };

    // A type that has a number below 0 keeps a byte for its minus.
    ghost minus_fits: { (n : Self) → IsTrue (is_negative (number n)) → 0 < sign_width };
}

impl Numeral for u64 {
    ghost number = { pos };

    ghost sign_width = { 0 };

    ghost minus_fits = { Prim.search rules };

    fn sign_and_size(self) -> (bool, u64) {
        (false, self)
    }

    fn from_whole(z: i64) -> Option<u64> {
        u64::try_from(z).ok()
    }
}

impl Numeral for i64 {
    ghost number = { λ z. z };

    ghost sign_width = { 1 };

    ghost minus_fits = { Prim.search rules };

    fn sign_and_size(self) -> (bool, u64) {
        (self.is_negative(), self.unsigned_abs())
    }

    fn from_whole(z: i64) -> Option<i64> {
        Some(z)
    }
}
