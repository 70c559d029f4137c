// What the legs of a chart weigh against a rate.
ghost use Rattle.search.specs.Layer.{Ready};

use charts::Chart;
use costs::Rate;

// A chart, and a rate that a round can have, against which its legs are weighed.
#[derive(Drop)]
pub struct Weights<'a, C: Chart> {
    pub chart: &'a C,
    pub rate: Rate<C::Cost>,
    ghost ready: { Ready C.Cost.CostKind.kind C.Cost.CostKind.row (C.Chart.meaning chart.now) rate },
}
