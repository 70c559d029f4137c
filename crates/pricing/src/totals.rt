// The summed cost and hours of legs, read through a chart.
ghost use Rattle.std.specs.Prelude.{◌≡◌, ◌+◌, ◌-◌, ◌^◌, ◌<◌, ◌≤◌, min, length};
ghost use Rattle.limits.specs.Numbers.{most_legs, exact_size};
ghost use Rattle.rows.specs.Rows.{zero_row};
ghost use Rattle.rows.specs.Rows.{sum as row_sum};
ghost use Rattle.charts.specs.Meaning.{Within};
ghost use Rattle.charts.specs.Reading.{figures_of};
ghost use Rattle.rounds.specs.Legs.{figures_at};
ghost use Rattle.pricing.specs.Totals.{Totals, SummedIfFew};

use charts::{Chart, Entry, Leg};
use costs::{CostKind, Rate};

// The leg of a number, or one of no hours and no cost where there is none.
pub fn leg_at<C: Chart>(chart: &C, n: usize) -> Leg<C::Cost>
    ensures { figures_of C.Cost.CostKind.row result ≡ figures_at (C.Chart.meaning chart.now) n }
{
    match chart.entry(n) {
        Entry::Leg(leg) => leg,
        _ => Leg {
            from: 0,
            to: 0,
            hours: 0,
            cost: C::Cost::zero(),
        },
    }
}

// The sum with one leg more. The hours saturate, which they come to only past what a chart can hold.
fn with_leg<K: CostKind>(sum: Rate<K>, leg: Leg<K>) -> Rate<K>
    ensures cost { K.CostKind.kind.size (K.CostKind.row sum.cost) + K.CostKind.kind.size (K.CostKind.row leg.cost) ≤ exact_size → K.CostKind.row result.cost ≡ row_sum (K.CostKind.row sum.cost) (K.CostKind.row leg.cost) }
    ensures hours { result.hours ≡ min (sum.hours + leg.hours) (2 ^ 64 - 1) }
{
    Rate {
        cost: sum.cost.plus(leg.cost),
        hours: sum.hours.saturating_add(u64::from(leg.hours)),
    }
}

// The sum of no legs.
fn no_legs<K: CostKind>() -> Rate<K>
    ensures cost { K.CostKind.row result.cost ≡ zero_row }
    ensures small { K.CostKind.kind.size (K.CostKind.row result.cost) ≡ 0 }
    ensures hours { result.hours ≡ 0 }
{
    Rate {
        cost: K::zero(),
        hours: 0,
    }
}

// The sum of the legs of a list on a chart within its limits, which bound each leg.
fn sum_legs<C: Chart>(chart: &C, numbers: &[u16]) -> Rate<C::Cost>
    requires { Within C.Cost.CostKind.kind (C.Chart.meaning chart.now) }
    ensures { length numbers.now ≤ most_legs → Totals C.Cost.CostKind.row (C.Chart.meaning chart.now) numbers.now result.cost result.hours }
{
    let mut sum = no_legs();
    for number in numbers {
        sum = with_leg(sum, leg_at(chart, usize::from(*number)));
    }
    sum
}

// What the legs of a list cost and take together; exact for as many as a chart has entries.
pub fn total<C: Chart>(chart: &C, numbers: &[u16]) -> Rate<C::Cost>
    ensures { length numbers.now ≤ most_legs → Totals C.Cost.CostKind.row (C.Chart.meaning chart.now) numbers.now result.cost result.hours }
{
    // asked since a chart answers its ports only within its limits
    let _ports = chart.ports();
    sum_legs(chart, numbers)
}
