// Cheaper rounds, one after another, until no closed walk is cheaper.
ghost use Rattle.std.specs.Prelude.{◌≡◌, ◌≤◌, length};
ghost use Rattle.rounds.specs.Rates.{NoIdleRound};
ghost use Rattle.search.specs.Search.{Holds};
ghost use Rattle.search.specs.Area.{cost_places, number_places, Lent, RestStays};
ghost use Rattle.search.specs.Improve.{Improvement};

use crate::round::Held;
use crate::search::find_cheaper_in;
use charts::Chart;
use costs::CostKind;

// The round of least rate, starting from one that stands in front of the buffer: the one that took its place, or none
// where the given one is least, since a level one is no reason to move. The costs front then holds the marks.
pub fn least_round<C: Chart>(
    chart: &C,
    start: Held<C::Cost>,
    costs: &mut [C::Cost],
    numbers: &mut [u32],
    round: &mut [u16],
) -> Option<Held<C::Cost>>
    requires busy { NoIdleRound (C.Chart.meaning chart.now) }
    requires area { Lent (C.Chart.meaning chart.now).ports costs.old numbers.old round.old }
    requires start { Holds C.Cost.CostKind.row (C.Chart.meaning chart.now) round.old start }
    ensures improved { Improvement C.Cost.CostKind.kind C.Cost.CostKind.row (C.Chart.meaning chart.now) start round.old costs.new round.new result }
    ensures costs { RestStays (cost_places (C.Chart.meaning chart.now).ports) costs.old costs.new }
    ensures numbers { RestStays (number_places (C.Chart.meaning chart.now).ports) numbers.old numbers.new }
{
    let ports = chart.ports();
    let layers = &mut costs[0..2 * ports];
    let used = &mut numbers[0..(ports + 1) * ports];
    let mut found = None;
    let mut rate = start.rate;
    while let Some(held) = find_cheaper_in(chart, rate, layers, used, round) {
        rate = held.rate;
        found = Some(held);
    }
    found
}
