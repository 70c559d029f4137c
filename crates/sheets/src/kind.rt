// The cost kinds that can be put on a sheet.
ghost use Rattle.std.specs.Prelude.{◌≡◌, ℕ, ◌≤◌, unsigned_abs};
ghost use Rattle.rows.specs.Rows.{place};
ghost use Rattle.charts.specs.Reading.{figures_of};
ghost use Rattle.sheets.specs.Places.{row_of, SamePlaces, largest};
ghost use Rattle.std.proofs.Common.{rules};

use crate::places::Places;
use charts::Leg;
use costs::{CostKind, Money, MoneyTonnes};

// A cost kind that gives its places and is made of them: by methods and not by From, since a value leaves out the places past its own.
pub trait SheetKind: CostKind {
    // The places as plain numbers; past its last place a value has zeros.
    fn places(self) -> Places
        ensures same { row_of result ≡ Self.CostKind.row self }
        ensures small { largest (row_of result) ≤ Self.CostKind.kind.size (Self.CostKind.row self) };

    // The value of these places, as many of them as the kind has.
    fn made_of(places: Places) -> Self
        ensures { SamePlaces Self.CostKind.kind.places (Self.CostKind.row result) (row_of places) };

    // No place has a magnitude above the size.
    ghost bounded: { (c : Self) (i : ℕ) → unsigned_abs (place (Self.CostKind.row c) i) ≤ Self.CostKind.kind.size (Self.CostKind.row c) };
}

impl SheetKind for Money {
    ghost bounded = { Prim.search rules };

    fn places(self) -> Places {
        Places {
            numbers: [self.dollars, 0, 0, 0],
        }
    }

    fn made_of(places: Places) -> Money {
        let [dollars, ..] = places.numbers;
        Money { dollars }
    }
}

impl SheetKind for MoneyTonnes {
    ghost bounded = { Prim.search rules };

    fn places(self) -> Places {
        Places {
            numbers: [self.dollars, self.tonnes, 0, 0],
        }
    }

    fn made_of(places: Places) -> MoneyTonnes {
        let [dollars, tonnes, ..] = places.numbers;
        MoneyTonnes { dollars, tonnes }
    }
}

// A leg with the places of its cost as plain numbers: field by field, since the cost changes its type.
pub fn plain_leg<K: SheetKind>(leg: Leg<K>) -> Leg<Places>
    ensures same { figures_of row_of result ≡ figures_of K.CostKind.row leg }
    ensures small { largest (row_of result.cost) ≤ K.CostKind.kind.size (K.CostKind.row leg.cost) }
{
    Leg {
        from: leg.from,
        to: leg.to,
        hours: leg.hours,
        cost: leg.cost.places(),
    }
}
