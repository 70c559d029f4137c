// The round of least rate on a chart, from nothing.
ghost use Rattle.std.specs.Prelude.{◌≤◌, length};
ghost use Rattle.search.specs.Area.{cost_places, number_places, Lent, RestStays};
ghost use Rattle.search.specs.Find.{Finds};

use crate::bare::has_idle_round;
use crate::first::first_round;
use crate::improve::least_round;
use crate::over::has_over;
use crate::round::Held;
use charts::Chart;
use costs::CostKind;
use limits::refusal::Refusal;
use pricing::total;

// A round of least rate in front of the buffer, and the marks in front of the costs; or the first refusal that applies.
pub fn find_least<C: Chart>(
    chart: &C,
    costs: &mut [C::Cost],
    numbers: &mut [u32],
    round: &mut [u16],
) -> Result<Held<C::Cost>, Refusal>
    ensures finds { let m = C.Chart.meaning chart.now in
        let lent = Lent m.ports costs.old numbers.old round.old in
        Finds C.Cost.CostKind.kind C.Cost.CostKind.row m lent costs.new round.new result }
    ensures costs { RestStays (cost_places (C.Chart.meaning chart.now).ports) costs.old costs.new }
    ensures numbers { RestStays (number_places (C.Chart.meaning chart.now).ports) numbers.old numbers.new }
{
    let ports = chart.ports();
    if costs.len() < 3 * ports || numbers.len() < (ports + 1) * ports || round.len() < ports {
        return Err(Refusal::Length);
    }
    if has_over(chart) {
        return Err(Refusal::EntryOver);
    }
    if has_idle_round(chart, numbers, round) {
        return Err(Refusal::IdleRound);
    }
    match first_round(chart, numbers, round) {
        None => Err(Refusal::NoRound),
        Some(legs) => {
            let rate = total(chart, &round[0..legs]);
            let first = Held { legs, rate };
            Ok(least_round(chart, first, costs, numbers, round).unwrap_or(first))
        }
    }
}
