// Charts that stand on any other chart, and what a layer does to each leg.
ghost use Rattle.std.specs.Prelude.{◌≡◌, Bool, true, Option};
ghost use Rattle.limits.specs.Numbers.{most_ports};
ghost use Rattle.charts.specs.Meaning.{Figures, Allowed};
ghost use Rattle.charts.specs.Reading.{figures_of};
ghost use Rattle.charts.specs.Layers.{passed_on, layered};

use super::chart::Chart;
use super::leg::{Entry, Leg};
use super::limited::limited_entry;
use costs::CostKind;

// What a layer makes of a leg of the chart beneath, before the limits are applied.
pub trait Layer<K: CostKind> {
    ghost accepted: { Self → Bool };

    ghost becomes: { Self → Figures → Option Figures };

    // Whether the layer's own figures are within their limits.
    fn is_accepted(&self) -> bool
        ensures { result ≡ accepted self.now };

    // The leg as the layer has it, or none where its number is to be blank. Each layer writes these clauses again, since
    // the check gives a method of a trait with a parameter none of its trait's.
    fn pass(&self, leg: Leg<K>) -> Option<Leg<K>>
        requires accepted { accepted self.now ≡ true }
        requires allowed { Allowed K.CostKind.kind most_ports (figures_of K.CostKind.row leg) }
        ensures { passed_on K.CostKind.row result ≡ becomes self.now (figures_of K.CostKind.row leg) };
}

// A chart with a layer on it.
#[derive(Drop)]
pub struct Layered<C, L> {
    chart: C,
    layer: L,
}

impl<C, L> Layered<C, L> {
    pub fn new(chart: C, layer: L) -> Layered<C, L>
        ensures { (result.chart ≡ chart) × (result.layer ≡ layer) }
    {
        Layered { chart, layer }
    }
}

impl<C: Chart, L: Layer<C::Cost>> Chart for Layered<C, L> {
    type Cost = C::Cost;

    ghost meaning = { λ s. layered C.Cost.CostKind.kind (L.Layer.becomes s.layer) (L.Layer.accepted s.layer) (C.Chart.meaning s.chart) };

    fn ports(&self) -> usize {
        if self.layer.is_accepted() {
            self.chart.ports()
        } else {
            1
        }
    }

    fn count(&self) -> usize {
        if self.layer.is_accepted() {
            self.chart.count()
        } else {
            0
        }
    }

    fn entry(&self, n: usize) -> Entry<C::Cost> {
        if !self.layer.is_accepted() {
            return Entry::Blank;
        }
        let ports = self.chart.ports();
        match self.chart.entry(n) {
            Entry::Blank => Entry::Blank,
            Entry::Leg(leg) => match self.layer.pass(leg) {
                None => Entry::Blank,
                Some(leg) => limited_entry(ports, leg),
            },
            Entry::Over => Entry::Over,
        }
    }
}
