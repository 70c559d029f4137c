// Walks back along predecessors, from a port in the last layer to the first port that comes again.
ghost use Rattle.std.specs.Prelude.{◌≡◌, ◌+◌, ◌-◌, ◌<◌, length};
ghost use Rattle.rounds.specs.Legs.{leaves};
ghost use Rattle.search.specs.Back.{Walked};

use crate::predecessors::Predecessors;
use charts::{Chart, Entry};

// So many legs back from a port in a layer, that port comes again.
#[derive(Clone, Copy)]
pub struct Repeat {
    pub legs: usize,
    pub layer: usize,
    pub port: usize,
}

// The port that a leg leaves, or 0 where there is no leg.
pub fn left_port<C: Chart>(chart: &C, n: usize) -> usize
    ensures { result ≡ leaves (C.Chart.meaning chart.now) n }
{
    match chart.entry(n) {
        Entry::Leg(leg) => leg.from as usize,
        _ => 0,
    }
}

// A port that was met in layer `met` and comes again below layer `left` + 1.
pub fn repeat_between(met: usize, left: usize, port: usize) -> Repeat
    requires { left < met }
    ensures legs { result.legs ≡ met - left }
    ensures place { (result.layer ≡ met) × (result.port ≡ port) }
{
    Repeat {
        legs: met - left,
        layer: met,
        port,
    }
}

impl<'a, C: Chart> Predecessors<'a, C> {
    // `seen` tells in which layer the walk met each port, 0 where it did not: it is lent, and so of plain numbers.
    pub fn walk_back(&self, port: usize, seen: &mut [u32]) -> Option<Repeat>
        requires port { port < (C.Chart.meaning self.now.chart.now).ports }
        requires seen { length seen.old ≡ (C.Chart.meaning self.now.chart.now).ports }
        ensures { Walked (C.Chart.meaning self.now.chart.now) self.now.width self.now.numbers.now self.now.layers port result }
    {
        seen.fill(0);
        let mut at = port;
        for left in (0..self.layers).rev() {
            let leg = self.leg(left, at)?;
            seen[at] = left as u32 + 1;
            at = left_port(self.chart, leg);
            let met = seen[at] as usize;
            if met > 0 {
                return Some(repeat_between(met, left, at));
            }
        }
        None
    }
}
