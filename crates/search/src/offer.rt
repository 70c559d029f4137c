// What a leg offers to the port that it reaches: the cost reached at the port that it leaves, and its weight.
ghost use Rattle.std.specs.Prelude.{◌≡◌, ◌*◌, ◌<◌, ◌≤◌, length, slice_index_or};
ghost use Rattle.limits.specs.Numbers.{most_ports, exact_size};
ghost use Rattle.charts.specs.Meaning.{Allowed};
ghost use Rattle.charts.specs.Reading.{figures_of};
ghost use Rattle.rounds.specs.Sizes.{SmallRate, most_leg_weight};
ghost use Rattle.search.specs.Layer.{row_at};
ghost use Rattle.search.specs.Offer.{weighed, offered};

use charts::Leg;
use costs::{CostKind, Rate};

// The weight of a leg against a rate.
fn leg_weight<K: CostKind>(leg: Leg<K>, rate: Rate<K>) -> K
    requires leg { Allowed K.CostKind.kind most_ports (figures_of K.CostKind.row leg) }
    requires rate { SmallRate K.CostKind.kind (K.CostKind.row rate.cost) rate.hours }
    ensures value { K.CostKind.row result ≡ weighed (figures_of K.CostKind.row leg) (K.CostKind.row rate.cost) rate.hours }
    ensures small { K.CostKind.kind.size (K.CostKind.row result) ≤ most_leg_weight }
{
    leg.cost
        .multiple(rate.hours)
        .plus(rate.cost.multiple(leg.hours as u64).negated())
}

// The cost reached at the port that a leg leaves.
fn cost_before<K: CostKind>(costs: &[K], leg: Leg<K>) -> K
    requires { leg.from < length costs.now }
    ensures { result ≡ slice_index_or costs.now leg.from result }
{
    costs[leg.from as usize]
}

pub fn leg_offer<K: CostKind>(costs: &[K], leg: Leg<K>, rate: Rate<K>) -> K
    requires leg { Allowed K.CostKind.kind most_ports (figures_of K.CostKind.row leg) }
    requires rate { SmallRate K.CostKind.kind (K.CostKind.row rate.cost) rate.hours }
    requires place { leg.from < length costs.now }
    requires small { K.CostKind.kind.size (row_at K.CostKind.row costs.now leg.from) ≤ 255 * most_leg_weight }
    ensures value { K.CostKind.row result ≡ offered K.CostKind.row costs.now rate (figures_of K.CostKind.row leg) }
    ensures small { K.CostKind.kind.size (K.CostKind.row result) ≤ 256 * most_leg_weight }
{
    cost_before(costs, leg).plus(leg_weight(leg, rate))
}

// Whether an offer is strictly lower than what a port has.
pub fn is_lower<K: CostKind>(offer: K, held: K) -> bool
    ensures { let k = K.CostKind.kind in
        let a = K.CostKind.row offer in
        let b = K.CostKind.row held in
        k.size a ≤ exact_size → k.size b ≤ exact_size → result ≡ k.below a b }
{
    offer.below(held)
}
