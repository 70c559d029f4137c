// One layer more: the least weights of walks with one leg more, and the leg that each comes by.
ghost use Rattle.std.specs.Prelude.{◌≡◌, ◌+◌, ◌<◌, length};
ghost use Rattle.search.specs.Layer.{LayerCopied, Relaxing, LayerRelaxed};

use crate::offer::{is_lower, leg_offer};
use crate::predecessors::predecessor;
use crate::weights::Weights;
use charts::{Chart, Entry};

impl<'a, C: Chart> Weights<'a, C> {
    // Tries one entry: a leg that makes the port that it reaches lower becomes the predecessor of that port.
    fn relax_entry(
        &self,
        n: usize,
        costs: &[C::Cost],
        next: &mut [C::Cost],
        preds: &mut [u32],
        improved: bool,
    ) -> bool
        requires number { n < length (C.Chart.meaning self.now.chart.now).entries }
        requires relaxing { Relaxing C.Cost.CostKind.kind C.Cost.CostKind.row (C.Chart.meaning self.now.chart.now) self.now.rate costs.now next.old preds.old n improved }
        ensures { Relaxing C.Cost.CostKind.kind C.Cost.CostKind.row (C.Chart.meaning self.now.chart.now) self.now.rate costs.now next.new preds.new (n + 1) result }
    {
        match self.chart.entry(n) {
            Entry::Leg(leg) => {
                let to = leg.to as usize;
                let offer = leg_offer(costs, leg, self.rate);
                if is_lower(offer, next[to]) {
                    next[to] = offer;
                    preds[to] = predecessor(n);
                    true
                } else {
                    improved
                }
            }
            _ => improved,
        }
    }

    // Tries every leg on a layer: its copy becomes the next one.
    pub fn relax_layer(&self, costs: &[C::Cost], next: &mut [C::Cost], preds: &mut [u32]) -> bool
        requires layers { LayerCopied C.Cost.CostKind.kind C.Cost.CostKind.row (C.Chart.meaning self.now.chart.now) costs.now next.old }
        requires preds { length preds.old ≡ (C.Chart.meaning self.now.chart.now).ports }
        ensures { LayerRelaxed C.Cost.CostKind.kind C.Cost.CostKind.row (C.Chart.meaning self.now.chart.now) self.now.rate costs.now next.new preds.new result }
    {
        preds.fill(0);
        let mut improved = false;
        for n in 0..self.chart.count() {
            improved = self.relax_entry(n, costs, next, preds, improved);
        }
        improved
    }
}
