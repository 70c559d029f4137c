// The hire layer: to the cost of a leg come its hours times the hire.
ghost use Rattle.std.specs.Prelude.{◌≡◌, ◌*◌, ◌≤◌, true, nat_le};
ghost use Rattle.limits.specs.Numbers.{most_ports, most_cost, exact_size};
ghost use Rattle.rows.specs.Rows.{times};
ghost use Rattle.charts.specs.Meaning.{Allowed};
ghost use Rattle.charts.specs.Reading.{figures_of};
ghost use Rattle.limits.specs.Refusals.{answer};
ghost use Rattle.charts.specs.Layers.{passed_on, with_hire};
ghost use Rattle.charts.specs.Limits.{cost_refusal};

use super::layer::Layer;
use super::leg::Leg;
use super::limited::check_cost;
use costs::CostKind;
use limits::MOST_COST;
use limits::refusal::Refusal;

// The cost of a ship's hour, of either sign.
#[derive(Clone, Copy)]
pub struct Hire<K> {
    cost: K,
}

impl<K: CostKind> Hire<K> {
    pub fn check(cost: K) -> Result<(), Refusal>
        ensures { result ≡ answer (cost_refusal K.CostKind.kind (K.CostKind.row cost)) tt }
    {
        check_cost(cost)
    }

    // The hire; under one that the check refuses a chart shows nothing.
    pub fn new(cost: K) -> Hire<K>
        ensures { result.cost ≡ cost }
    {
        Hire { cost }
    }
}

// The hire of so many hours.
fn hire_of<K: CostKind>(cost: K, hours: u32) -> K
    ensures { let k = K.CostKind.kind in
        let a = K.CostKind.row cost in
        k.size a ≤ exact_size → hours * k.size a ≤ exact_size → K.CostKind.row result ≡ times hours a }
{
    cost.multiple(hours as u64)
}

impl<K: CostKind> Layer<K> for Hire<K> {
    ghost accepted = { λ s. nat_le (K.CostKind.kind.size (K.CostKind.row s.cost)) most_cost };

    ghost becomes = { λ s. with_hire (K.CostKind.row s.cost) };

    fn is_accepted(&self) -> bool {
        self.cost.fits(MOST_COST)
    }

    fn pass(&self, leg: Leg<K>) -> Option<Leg<K>>
        requires accepted { nat_le (K.CostKind.kind.size (K.CostKind.row self.now.cost)) most_cost ≡ true }
        requires allowed { Allowed K.CostKind.kind most_ports (figures_of K.CostKind.row leg) }
        ensures { passed_on K.CostKind.row result ≡ with_hire (K.CostKind.row self.now.cost) (figures_of K.CostKind.row leg) }
    {
        let hire = hire_of(self.cost, leg.hours);
        Some(Leg {
            cost: leg.cost.plus(hire),
            ..leg
        })
    }
}
