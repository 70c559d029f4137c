// A look at the last layer: walks back from its ports, and the cheapest round that they come to.
ghost use Rattle.std.specs.Prelude.{◌≡◌, ◌<◌, ◌≤◌, ◌⊎◌, length, Some};
ghost use Rattle.rows.specs.Kinds.{cheaper};
ghost use Rattle.rounds.specs.Sizes.{SmallRate};
ghost use Rattle.search.specs.Look.{Known, FoundFrom, LookedFrom, Written, Looked};

use crate::back::Repeat;
use crate::predecessors::Predecessors;
use crate::round::{Held, sum_back, write_round};
use charts::Chart;
use costs::{CostKind, Rate};

// A repeat with its rate.
#[derive(Clone, Copy)]
pub struct Found<K> {
    pub repeat: Repeat,
    pub rate: Rate<K>,
}

fn is_cheaper<K: CostKind>(a: &Found<K>, b: &Found<K>) -> bool
    ensures { let k = K.CostKind.kind in
        let x = a.now.rate in
        let y = b.now.rate in
        SmallRate k (K.CostKind.row x.cost) x.hours → SmallRate k (K.CostKind.row y.cost) y.hours →
        result ≡ cheaper k (K.CostKind.row x.cost) x.hours (K.CostKind.row y.cost) y.hours }
{
    a.rate.is_cheaper_than(b.rate)
}

// The cheaper of the two. Which one it is saves time, and nothing rests on it.
pub fn cheaper_of<K: CostKind>(best: Option<Found<K>>, new: Found<K>) -> Found<K>
    ensures { (result ≡ new) ⊎ (best ≡ Some result) }
{
    match best {
        None => new,
        Some(old) => { if is_cheaper(&new, &old) { new } else { old } }
    }
}

impl<'a, C: Chart> Predecessors<'a, C> {
    // The repeat to which a port leads back. A port without a predecessor needs no walk.
    pub(crate) fn repeat_from(&self, port: usize, seen: &mut [u32]) -> Option<Found<C::Cost>>
        requires some { 0 < self.now.layers }
        requires port { port < (C.Chart.meaning self.now.chart.now).ports }
        requires seen { length seen.old ≡ (C.Chart.meaning self.now.chart.now).ports }
        ensures { FoundFrom C.Cost.CostKind.row (C.Chart.meaning self.now.chart.now) self.now.width self.now.numbers.now self.now.layers port result }
    {
        let Some(_) = self.leg(self.layers - 1, port) else {
            return None;
        };
        let repeat = self.walk_back(port, seen)?;
        let rate = sum_back(self.chart, self.width, self.numbers, repeat);
        Some(Found { repeat, rate })
    }

    // The cheapest of the repeats to which the ports lead back.
    fn cheapest_repeat(&self, seen: &mut [u32]) -> Option<Found<C::Cost>>
        requires some { 0 < self.now.layers }
        requires seen { length seen.old ≡ (C.Chart.meaning self.now.chart.now).ports }
        ensures { LookedFrom C.Cost.CostKind.row (C.Chart.meaning self.now.chart.now) self.now.width self.now.numbers.now self.now.layers (C.Chart.meaning self.now.chart.now).ports result }
    {
        let ports = self.chart.ports();
        let mut best: Option<Found<C::Cost>> = None;
        for port in 0..ports {
            if let Some(found) = self.repeat_from(port, seen) {
                best = Some(cheaper_of(best, found));
            }
        }
        best
    }

    // Writes a repeat in front of the buffer.
    pub(crate) fn write_found(&self, found: Found<C::Cost>, round: &mut [u16]) -> Held<C::Cost>
        requires known { Known C.Cost.CostKind.row (C.Chart.meaning self.now.chart.now) self.now.width self.now.numbers.now self.now.layers found }
        requires round { (C.Chart.meaning self.now.chart.now).ports ≤ length round.old }
        ensures { Written C.Cost.CostKind.row (C.Chart.meaning self.now.chart.now) self.now.width self.now.numbers.now self.now.layers round.new result }
    {
        let legs = found.repeat.legs;
        write_round(
            self.chart,
            self.width,
            self.numbers,
            found.repeat,
            &mut round[0..legs],
        );
        Held {
            legs,
            rate: found.rate,
        }
    }

    // Writes the cheapest round that the last layer leads back to in front of the buffer.
    pub fn cheapest_round(&self, seen: &mut [u32], round: &mut [u16]) -> Option<Held<C::Cost>>
        requires some { 0 < self.now.layers }
        requires seen { length seen.old ≡ (C.Chart.meaning self.now.chart.now).ports }
        requires round { (C.Chart.meaning self.now.chart.now).ports ≤ length round.old }
        ensures { Looked C.Cost.CostKind.row (C.Chart.meaning self.now.chart.now) self.now.width self.now.numbers.now self.now.layers round.old round.new result }
    {
        let found = self.cheapest_repeat(seen)?;
        Some(self.write_found(found, round))
    }
}
