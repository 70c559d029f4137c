// The stays layer: to the hours of a leg comes the stay of the port that it reaches.
pub mod table;

ghost use Rattle.std.specs.Prelude.{◌≡◌, ◌<◌, true, slice_index};
ghost use Rattle.limits.specs.Numbers.{most_ports};
ghost use Rattle.charts.specs.Meaning.{Allowed};
ghost use Rattle.charts.specs.Reading.{figures_of};
ghost use Rattle.limits.specs.Refusals.{answer};
ghost use Rattle.charts.specs.Layers.{passed_on, with_stay};
ghost use Rattle.charts.specs.Stays.{all_short, stays_refusal};

use super::layer::Layer;
use super::leg::Leg;
use costs::CostKind;
use limits::MOST_HOURS;
use limits::refusal::Refusal;
pub use table::Stays;

// Entry by entry, whatever the number of ports.
fn are_short(stays: &[u32]) -> bool
    ensures { result ≡ all_short stays.now }
{
    stays.iter().all(|stay| *stay <= MOST_HOURS)
}

impl Stays {
    pub fn check(hours: [u32; 256]) -> Result<(), Refusal>
        ensures { result ≡ answer (stays_refusal hours) tt }
    {
        if are_short(&hours) {
            Ok(())
        } else {
            Err(Refusal::Hours)
        }
    }

    // The stays in all ports; under those that the check refuses a chart shows nothing.
    pub fn new(hours: [u32; 256]) -> Stays
        ensures { result.hours ≡ hours }
    {
        Stays {
            hours,
            short: are_short(&hours),
        }
    }
}

// The stay in the port that a leg reaches.
fn stay_after<K: CostKind>(stays: &Stays, leg: Leg<K>) -> u32
    requires { leg.to < most_ports }
    ensures { result ≡ slice_index stays.now.hours leg.to }
{
    stays.hours[leg.to as usize]
}

impl<K: CostKind> Layer<K> for Stays {
    ghost accepted = { λ s. all_short s.hours };

    ghost becomes = { λ s. with_stay s.hours };

    fn is_accepted(&self) -> bool {
        self.short
    }

    fn pass(&self, leg: Leg<K>) -> Option<Leg<K>>
        requires accepted { all_short self.now.hours ≡ true }
        requires allowed { Allowed K.CostKind.kind most_ports (figures_of K.CostKind.row leg) }
        ensures { passed_on K.CostKind.row result ≡ with_stay self.now.hours (figures_of K.CostKind.row leg) }
    {
        let stay = stay_after(self, leg);
        Some(Leg {
            hours: leg.hours + stay,
            ..leg
        })
    }
}
