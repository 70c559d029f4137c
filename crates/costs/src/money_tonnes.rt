// Money, then tonnes of carbon dioxide: two places; the tonnes decide only where the dollars are equal.
ghost use Rattle.std.specs.Prelude.{◌≡◌, ◌+◌, ◌*◌, ◌≤◌, pos, ◌+ℤ◌, ◌*ℤ◌, neg_ℤ, unsigned_abs, Some, refl};
ghost use Rattle.limits.specs.Numbers.{exact_size};
ghost use Rattle.rows.specs.Orders.{by_dollars_then_tonnes};
ghost use Rattle.rows.specs.Rows.{two_places};
ghost use Rattle.rows.proofs.Lawful.{by_dollars_then_tonnes_laws};
ghost use Rattle.rows.proofs.Places.{two_places_narrow};
ghost use Rattle.costs.specs.Texts.{money_tonnes_text};

use crate::kind::CostKind;
use crate::whole::{multiple_of, negative_of, sum_of};
use std::fmt;

// A type of its own beside `Money`, and no list of one place or two: each place is told by its name and unit.
#[derive(Clone, Copy, PartialEq, Eq, PartialOrd, Ord, Debug)]
pub struct MoneyTonnes {
    pub dollars: i64,
    pub tonnes: i64,
}

// Each place by itself: what the kind's sum, negative and multiple come to.
impl MoneyTonnes {
    fn sum_by_place(self, other: MoneyTonnes) -> MoneyTonnes
        ensures dollars { unsigned_abs self.dollars + unsigned_abs other.dollars ≤ exact_size → result.dollars ≡ self.dollars +ℤ other.dollars }
        ensures tonnes { unsigned_abs self.tonnes + unsigned_abs other.tonnes ≤ exact_size → result.tonnes ≡ self.tonnes +ℤ other.tonnes }
    {
        MoneyTonnes {
            dollars: sum_of(self.dollars, other.dollars),
            tonnes: sum_of(self.tonnes, other.tonnes),
        }
    }

    fn negative_by_place(self) -> MoneyTonnes
        ensures dollars { unsigned_abs self.dollars ≤ exact_size → result.dollars ≡ neg_ℤ self.dollars }
        ensures tonnes { unsigned_abs self.tonnes ≤ exact_size → result.tonnes ≡ neg_ℤ self.tonnes }
    {
        MoneyTonnes {
            dollars: negative_of(self.dollars),
            tonnes: negative_of(self.tonnes),
        }
    }

    fn multiple_by_place(self, n: u64) -> MoneyTonnes
        ensures dollars { n * unsigned_abs self.dollars ≤ exact_size → result.dollars ≡ pos n *ℤ self.dollars }
        ensures tonnes { n * unsigned_abs self.tonnes ≤ exact_size → result.tonnes ≡ pos n *ℤ self.tonnes }
    {
        MoneyTonnes {
            dollars: multiple_of(self.dollars, n),
            tonnes: multiple_of(self.tonnes, n),
        }
    }
}

impl CostKind for MoneyTonnes {
    const PLACES: usize = 2;

    ghost PLACES = { 2 };

    ghost kind = { by_dollars_then_tonnes };

    ghost row = { λ c. two_places c.dollars c.tonnes };

    ghost lawful = { by_dollars_then_tonnes_laws };

    ghost as_many = { refl };

    ghost narrow = { λ c. two_places_narrow c.dollars c.tonnes };

    fn zero() -> MoneyTonnes {
        MoneyTonnes {
            dollars: 0,
            tonnes: 0,
        }
    }

    fn plus(self, other: MoneyTonnes) -> MoneyTonnes {
        self.sum_by_place(other)
    }

    fn negated(self) -> MoneyTonnes {
        self.negative_by_place()
    }

    fn multiple(self, n: u64) -> MoneyTonnes {
        self.multiple_by_place(n)
    }

    fn below(self, other: MoneyTonnes) -> bool {
        self < other
    }

    fn fits(self, limit: u64) -> bool {
        self.dollars.unsigned_abs() <= limit && self.tonnes.unsigned_abs() <= limit
    }
}

impl fmt::Display for MoneyTonnes {
    ghost output = { λ c. Some (money_tonnes_text c) };

    fn fmt<W: fmt::Write>(&self, f: &mut fmt::Formatter<W>) -> fmt::Result {
        write!(f, "{} dollars and {} tonnes", self.dollars, self.tonnes)
    }
}
