// A round cheaper than a rate, found layer by layer.
ghost use Rattle.std.specs.Prelude.{◌≡◌, ℕ, ◌+◌, ◌<◌, true, false, length};
ghost use Rattle.rows.specs.Rows.{zero_row};
ghost use Rattle.rounds.specs.Sizes.{SmallRate};
ghost use Rattle.search.specs.Layer.{row_at};
ghost use Rattle.search.specs.Search.{Area, WholeArea, Parts, Climbed, SomeLowered, Least, Searched};

use crate::predecessors::Predecessors;
use crate::round::Held;
use crate::weights::Weights;
use charts::Chart;
use costs::{CostKind, Rate};

// Zero at every place, as every walk of no legs weighs.
pub fn zero_costs<K: CostKind>(costs: &mut [K])
    ensures { (i : ℕ) → i < length costs.old → row_at K.CostKind.row costs.new i ≡ zero_row }
{
    let zero = K::zero();
    costs.fill_with(|| zero);
}

// Whether a layer is looked at. The last one has to be, and doubling keeps the looks few.
fn is_looked_at(layer: usize, ports: usize) -> bool
    ensures { layer ≡ ports → result ≡ true }
{
    layer == ports || layer.is_power_of_two()
}

impl<'a, C: Chart> Weights<'a, C> {
    // One layer more, its predecessors in the row of that number; and whether it made some port lower.
    fn climb(
        &self,
        layer: usize,
        costs: &mut [C::Cost],
        next: &mut [C::Cost],
        table: &mut [u32],
    ) -> bool
        requires climbed { Climbed C.Cost.CostKind.kind C.Cost.CostKind.row (C.Chart.meaning self.now.chart.now) self.now.rate table.old costs.old next.old layer }
        requires more { layer < (C.Chart.meaning self.now.chart.now).ports }
        ensures next { result ≡ true → Climbed C.Cost.CostKind.kind C.Cost.CostKind.row (C.Chart.meaning self.now.chart.now) self.now.rate table.new costs.new next.new (layer + 1) }
        ensures lowered { result ≡ true → SomeLowered (C.Chart.meaning self.now.chart.now) table.new (layer + 1) }
        ensures least { result ≡ false → Least C.Cost.CostKind.kind C.Cost.CostKind.row (C.Chart.meaning self.now.chart.now) self.now.rate costs.new }
    {
        let ports = costs.len();
        let row = &mut table[layer * ports..(layer + 1) * ports];
        let improved = self.relax_layer(costs, next, row);
        if improved {
            costs.copy_from_slice(next);
        }
        improved
    }

    // The parts are passed one by one: behind a struct of them each contract would have to say of each part that it is
    // still the caller's.
    fn search_layers(
        &self,
        costs: &mut [C::Cost],
        next: &mut [C::Cost],
        seen: &mut [u32],
        table: &mut [u32],
        round: &mut [u16],
    ) -> Option<Held<C::Cost>>
        requires { Parts (C.Chart.meaning self.now.chart.now).ports costs.old next.old seen.old table.old round.old }
        ensures { Searched C.Cost.CostKind.kind C.Cost.CostKind.row (C.Chart.meaning self.now.chart.now) self.now.rate costs.new round.old round.new result }
    {
        let ports = costs.len();
        zero_costs(costs);
        next.copy_from_slice(costs);
        for layer in 0..ports {
            if !self.climb(layer, costs, next, table) {
                return None;
            }
            if is_looked_at(layer + 1, ports) {
                let preds = Predecessors {
                    chart: self.chart,
                    numbers: table,
                    width: ports,
                    layers: layer + 1,
                };
                if let Some(held) = preds.cheapest_round(seen, round) {
                    return Some(held);
                }
            }
        }
        None
    }
}

// A cheaper round in front of the buffer; or there is none, and the costs front holds the marks. The costs are cut into
// two layers.
pub fn find_cheaper<C: Chart>(
    chart: &C,
    rate: Rate<C::Cost>,
    costs: &mut [C::Cost],
    seen: &mut [u32],
    table: &mut [u32],
    round: &mut [u16],
) -> Option<Held<C::Cost>>
    requires rate { SmallRate C.Cost.CostKind.kind (C.Cost.CostKind.row rate.cost) rate.hours }
    requires area { Area (C.Chart.meaning chart.now).ports costs.old seen.old table.old round.old }
    ensures { Searched C.Cost.CostKind.kind C.Cost.CostKind.row (C.Chart.meaning chart.now) rate costs.new round.old round.new result }
{
    let ports = chart.ports();
    let (reached, next) = costs.split_at_mut(ports);
    Weights { chart, rate }.search_layers(reached, next, seen, table, round)
}

// The same with the lent numbers whole. They are cut into a row for the ports seen and the table of predecessors.
pub(crate) fn find_cheaper_in<C: Chart>(
    chart: &C,
    rate: Rate<C::Cost>,
    costs: &mut [C::Cost],
    numbers: &mut [u32],
    round: &mut [u16],
) -> Option<Held<C::Cost>>
    requires rate { SmallRate C.Cost.CostKind.kind (C.Cost.CostKind.row rate.cost) rate.hours }
    requires area { WholeArea (C.Chart.meaning chart.now).ports costs.old numbers.old round.old }
    ensures { Searched C.Cost.CostKind.kind C.Cost.CostKind.row (C.Chart.meaning chart.now) rate costs.new round.old round.new result }
{
    let ports = chart.ports();
    let (seen, table) = numbers.split_at_mut(ports);
    find_cheaper(chart, rate, costs, seen, table, round)
}
