// Money: one place, whole dollars, in the usual order.
ghost use Rattle.std.specs.Prelude.{Some, refl};
ghost use Rattle.rows.specs.Orders.{by_dollars};
ghost use Rattle.rows.specs.Rows.{one_place};
ghost use Rattle.rows.proofs.Lawful.{by_dollars_laws};
ghost use Rattle.rows.proofs.Places.{one_place_narrow};
ghost use Rattle.costs.specs.Texts.{money_text};

use crate::kind::CostKind;
use crate::whole::{multiple_of, negative_of, sum_of};
use std::fmt;

#[derive(Clone, Copy, PartialEq, Eq, PartialOrd, Ord, Debug)]
pub struct Money {
    pub dollars: i64,
}

impl CostKind for Money {
    const PLACES: usize = 1;

    ghost PLACES = { 1 };

    ghost kind = { by_dollars };

    ghost row = { λ c. one_place c.dollars };

    ghost lawful = { by_dollars_laws };

    ghost as_many = { refl };

    ghost narrow = { λ c. one_place_narrow c.dollars };

    fn zero() -> Money {
        Money { dollars: 0 }
    }

    fn plus(self, other: Money) -> Money {
        Money {
            dollars: sum_of(self.dollars, other.dollars),
        }
    }

    fn negated(self) -> Money {
        Money {
            dollars: negative_of(self.dollars),
        }
    }

    fn multiple(self, n: u64) -> Money {
        Money {
            dollars: multiple_of(self.dollars, n),
        }
    }

    fn below(self, other: Money) -> bool {
        self < other
    }

    fn fits(self, limit: u64) -> bool {
        self.dollars.unsigned_abs() <= limit
    }
}

impl fmt::Display for Money {
    ghost output = { λ c. Some (money_text c) };

    fn fmt<W: fmt::Write>(&self, f: &mut fmt::Formatter<W>) -> fmt::Result {
        write!(f, "{} dollars", self.dollars)
    }
}
