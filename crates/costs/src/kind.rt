// What a cost kind shows and does.
ghost use Rattle.std.specs.Prelude.{◌≡◌, ℕ, ◌+◌, ◌*◌, ◌≤◌, nat_le};
ghost use Rattle.limits.specs.Numbers.{exact_size};
ghost use Rattle.rows.specs.Rows.{Row, zero_row, sum, negative, times, Narrow};
ghost use Rattle.rows.specs.Kinds.{Kind, Laws};
ghost use Rattle.rows.specs.Theorems.{Consequences};

// A value's meaning is its row. The functions refuse nothing and change no value; they are exact while no size, and no
// sum or multiple of sizes, passes 2 to the 62nd. Past that their answers are free.
pub trait CostKind: Copy {
    // How many places a value has.
    const PLACES: usize;

    ghost PLACES: { ℕ };

    ghost kind: { Kind };

    ghost row: { Self → Row };

    ghost lawful: { Laws kind };

    ghost as_many: { PLACES ≡ kind.places };

    // Nothing hides in a place that the kind does not have.
    ghost narrow: { (c : Self) → Narrow kind.places (row c) };

    // PLACES again, as many as the kind's rows have.
    fn place_count() -> usize
        ensures { result ≡ kind.places }
    {
        Self::PLACES
    }

    fn zero() -> Self
        ensures { row result ≡ zero_row };

    fn plus(self, other: Self) -> Self
        ensures { kind.size (row self) + kind.size (row other) ≤ exact_size → row result ≡ sum (row self) (row other) };

    fn negated(self) -> Self
        ensures { kind.size (row self) ≤ exact_size → row result ≡ negative (row self) };

    fn multiple(self, n: u64) -> Self
        ensures { kind.size (row self) ≤ exact_size → n * kind.size (row self) ≤ exact_size → row result ≡ times n (row self) };

    fn below(self, other: Self) -> bool
        ensures { kind.size (row self) ≤ exact_size → kind.size (row other) ≤ exact_size → result ≡ kind.below (row self) (row other) };

    // Whether the size is at most the limit: right for every value, and for every limit up to 2 to the 62nd.
    fn fits(self, limit: u64) -> bool
        ensures { limit ≤ exact_size → result ≡ nat_le (kind.size (row self)) limit };
}

// Every kind keeps the laws, and so has what follows from them.
pub fn kind_keeps_laws<K: CostKind>()
    ensures laws { Laws K.CostKind.kind }
    ensures consequences { Consequences K.CostKind.kind }
    ensures narrow { (c : K) → Narrow K.CostKind.kind.places (K.CostKind.row c) }
{}
