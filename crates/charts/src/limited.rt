// Which limit figures break first.
ghost use Rattle.std.specs.Prelude.{◌≡◌};
ghost use Rattle.limits.specs.Refusals.{answer};
ghost use Rattle.charts.specs.Limits.{port_count_refusal, cost_refusal, price_refusal, leg_refusal};
ghost use Rattle.charts.specs.Limits.{limited as limited_leg};
ghost use Rattle.charts.specs.Reading.{figures_of, entry_shown};

use super::leg::{Entry, Leg};
use costs::CostKind;
use limits::refusal::Refusal;
use limits::{MOST_COST, MOST_HOURS};

pub fn check_port_count(most: usize, ports: usize) -> Result<(), Refusal>
    ensures { result ≡ answer (port_count_refusal most ports) tt }
{
    if 1 <= ports && ports <= most {
        Ok(())
    } else {
        Err(Refusal::Port)
    }
}

pub fn check_cost<K: CostKind>(cost: K) -> Result<(), Refusal>
    ensures { result ≡ answer (cost_refusal K.CostKind.kind (K.CostKind.row cost)) tt }
{
    if cost.fits(MOST_COST) {
        Ok(())
    } else {
        Err(Refusal::Cost)
    }
}

// The hours may be more than a leg can hold, since they are tested before they are narrowed. Hours and cost are no
// struct of their own, which each caller would only make here to be taken apart.
pub fn check_price<K: CostKind>(hours: u64, cost: K) -> Result<(), Refusal>
    ensures { result ≡ answer (price_refusal K.CostKind.kind hours (K.CostKind.row cost)) tt }
{
    if hours <= u64::from(MOST_HOURS) {
        check_cost(cost)
    } else {
        Err(Refusal::Hours)
    }
}

// The figures of a leg, each tested before it is narrowed.
pub fn check_figures<K: CostKind>(
    ports: usize,
    from: u64,
    to: u64,
    hours: u64,
    cost: K,
) -> Result<(), Refusal>
    ensures { result ≡ answer (leg_refusal K.CostKind.kind ports (record { from = from; to = to; hours = hours; cost = K.CostKind.row cost })) tt }
{
    if from < ports as u64 && to < ports as u64 {
        check_price(hours, cost)
    } else {
        Err(Refusal::Port)
    }
}

pub fn check_leg<K: CostKind>(ports: usize, leg: Leg<K>) -> Result<(), Refusal>
    ensures { result ≡ answer (leg_refusal K.CostKind.kind ports (figures_of K.CostKind.row leg)) tt }
{
    check_figures(
        ports,
        u64::from(leg.from),
        u64::from(leg.to),
        u64::from(leg.hours),
        leg.cost,
    )
}

// The leg, or over where it breaks a limit on a chart of so many ports.
pub fn limited_entry<K: CostKind>(ports: usize, leg: Leg<K>) -> Entry<K>
    ensures { entry_shown K.CostKind.row result ≡ limited_leg K.CostKind.kind ports (figures_of K.CostKind.row leg) }
{
    match check_leg(ports, leg) {
        Ok(()) => Entry::Leg(leg),
        Err(_) => Entry::Over,
    }
}
