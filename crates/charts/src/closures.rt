// The closures layer: no leg leaves or reaches a port marked closed.
ghost use Rattle.std.specs.Prelude.{◌≡◌, true};
ghost use Rattle.limits.specs.Numbers.{most_ports};
ghost use Rattle.charts.specs.Meaning.{Allowed};
ghost use Rattle.charts.specs.Reading.{figures_of};
ghost use Rattle.charts.specs.Layers.{passed_on, unless_closed};

use super::layer::Layer;
use super::leg::Leg;
use costs::CostKind;

#[derive(Clone, Copy)]
pub struct Closures {
    closed: [bool; 256],
}

impl Closures {
    // The marks of all ports: true where a port is closed.
    pub fn new(closed: [bool; 256]) -> Closures
        ensures { result.closed ≡ closed }
    {
        Closures { closed }
    }
}

impl<K: CostKind> Layer<K> for Closures {
    ghost accepted = { λ _. true };

    ghost becomes = { λ s. unless_closed s.closed };

    fn is_accepted(&self) -> bool {
        true
    }

    fn pass(&self, leg: Leg<K>) -> Option<Leg<K>>
        requires allowed { Allowed K.CostKind.kind most_ports (figures_of K.CostKind.row leg) }
        ensures { passed_on K.CostKind.row result ≡ unless_closed self.now.closed (figures_of K.CostKind.row leg) }
    {
        if self.closed[leg.from as usize] || self.closed[leg.to as usize] {
            None
        } else {
            Some(leg)
        }
    }
}
