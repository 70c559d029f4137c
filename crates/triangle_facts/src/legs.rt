// The legs and the rounds of the worked example, as code.
ghost use Rattle.std.specs.Prelude.{◌≡◌, map, [], ◌∷◌, Some, None};
ghost use Rattle.rows.specs.Rows.{one_place, two_places};
ghost use Rattle.charts.specs.Meaning.{leg};
ghost use Rattle.rows.specs.Orders.{by_dollars, by_dollars_then_tonnes};
ghost use Rattle.charts.specs.Reading.{figures_of};
ghost use Rattle.charts.specs.Limits.{cost_refusal};
ghost use Rattle.charts.specs.Written.{written};
ghost use Rattle.triangle_facts.specs.Triangle.{three_ports, short_round, long_round};
ghost use Rattle.triangle_facts.specs.Triangle.{triangle_at as chart_at};
ghost use Rattle.triangle_facts.specs.Triangle.{triangle_with_tonnes as chart_with_tonnes};

use charts::Leg;
use costs::{CostKind, Money, MoneyTonnes};

pub const SHORT_ROUND: [u16; 2] = [0, 1];

pub const LONG_ROUND: [u16; 3] = [0, 2, 3];

// Each round of the code is the round of the same name in the definitions.
pub fn rounds_agree()
    ensures short { SHORT_ROUND ≡ short_round }
    ensures long { LONG_ROUND ≡ long_round }
{}

// The legs 0 to 3 at these costs.
pub fn legs_at<K: CostKind>(costs: [K; 4]) -> [Leg<K>; 4]
    ensures { let row = K.CostKind.row in
        (c₀ c₁ c₂ c₃ : K) → costs ≡ c₀ ∷ (c₁ ∷ (c₂ ∷ (c₃ ∷ []))) →
        map (λ l. leg (figures_of row l)) result ≡ (three_ports (row c₀) (row c₁) (row c₂) (row c₃)).entries }
{
    let [first, second, third, fourth] = costs;
    [
        Leg {
            from: 0,
            to: 1,
            hours: 40,
            cost: first,
        },
        Leg {
            from: 1,
            to: 0,
            hours: 20,
            cost: second,
        },
        Leg {
            from: 1,
            to: 2,
            hours: 30,
            cost: third,
        },
        Leg {
            from: 2,
            to: 0,
            hours: 50,
            cost: fourth,
        },
    ]
}

// The triangle with leg 1 at so many dollars.
pub fn triangle_at(leg_1: i64) -> [Leg<Money>; 4]
    ensures legs { map (λ l. leg (figures_of (λ c. one_place c.dollars) l)) result ≡ (chart_at (one_place leg_1)).entries }
    ensures chart { cost_refusal by_dollars (one_place leg_1) ≡ None → written by_dollars (λ c. one_place c.dollars) 3 (map Some result) ≡ chart_at (one_place leg_1) }
{
    legs_at([
        Money { dollars: -1_200 },
        Money { dollars: leg_1 },
        Money { dollars: -600 },
        Money { dollars: -600 },
    ])
}

// The triangle with leg 1 at 0 dollars, and the tonnes that each leg burns.
pub fn triangle_with_tonnes() -> [Leg<MoneyTonnes>; 4]
    ensures legs { map (λ l. leg (figures_of (λ c. two_places c.dollars c.tonnes) l)) result ≡ chart_with_tonnes.entries }
    ensures chart { written by_dollars_then_tonnes (λ c. two_places c.dollars c.tonnes) 3 (map Some result) ≡ chart_with_tonnes }
{
    legs_at([
        MoneyTonnes {
            dollars: -1_200,
            tonnes: 40,
        },
        MoneyTonnes {
            dollars: 0,
            tonnes: 20,
        },
        MoneyTonnes {
            dollars: -600,
            tonnes: 30,
        },
        MoneyTonnes {
            dollars: -600,
            tonnes: 60,
        },
    ])
}
