// Some round of a chart, and some idle one: a cheaper round asked for on a chart bare of hours and costs, where every closed walk is cheaper than nothing in one hour.
ghost use Rattle.std.specs.Prelude.{◌≡◌, ◌+◌, ◌≤◌, false, ◌&&◌, length, nat_lt};
ghost use Rattle.rounds.specs.Bare.{less_one};
ghost use Rattle.rounds.specs.Bare.{bare as bare_meaning};
ghost use Rattle.search.specs.Area.{number_places, RestStays};
ghost use Rattle.search.specs.Bare.{BareFound, SomeRound, TellsIdle};

use crate::search::find_cheaper_in;
use charts::{Chart, Entry, Leg};
use costs::{CostKind, Money, Rate};

// The legs of a chart, each of one hour at a cost of one less than nothing; with `idle`, only those of no hours. A test
// of a leg's hours as a closure could not stand in `meaning`, which is a term.
#[derive(Drop)]
pub struct Bare<'a, C> {
    chart: &'a C,
    idle: bool,
}

impl<'a, C: Chart> Chart for Bare<'a, C> {
    type Cost = Money;

    ghost meaning = { λ s. bare_meaning s.idle less_one (C.Chart.meaning s.chart.now) };

    fn ports(&self) -> usize {
        self.chart.ports()
    }

    fn count(&self) -> usize {
        self.chart.count()
    }

    fn entry(&self, n: usize) -> Entry<Money> {
        match self.chart.entry(n) {
            Entry::Blank => Entry::Blank,
            Entry::Leg(leg) if self.idle && leg.hours > 0 => Entry::Blank,
            Entry::Leg(leg) => Entry::Leg(Leg {
                from: leg.from,
                to: leg.to,
                hours: 1,
                cost: Money { dollars: -1 },
            }),
            Entry::Over => Entry::Over,
        }
    }
}

// The layers are of money, whatever the chart's kind, so they stand in an array here and not in the lent area.
fn find_bare<C: Chart>(
    chart: &C,
    idle: bool,
    numbers: &mut [u32],
    round: &mut [u16],
) -> Option<usize>
    requires numbers { number_places (C.Chart.meaning chart.now).ports ≤ length numbers.old }
    requires round { (C.Chart.meaning chart.now).ports ≤ length round.old }
    ensures found { BareFound (C.Chart.meaning chart.now) idle round.new result }
    ensures numbers { RestStays (number_places (C.Chart.meaning chart.now).ports) numbers.old numbers.new }
{
    let ports = chart.ports();
    let bare = Bare { chart, idle };
    let nothing = Rate {
        cost: Money { dollars: 0 },
        hours: 1,
    };
    let mut costs = [Money { dollars: 0 }; 512];
    let held = find_cheaper_in(
        &bare,
        nothing,
        &mut costs[0..2 * ports],
        &mut numbers[0..(ports + 1) * ports],
        round,
    )?;
    Some(held.legs)
}

// Some round, its legs in front of the buffer; or the chart has none.
pub fn any_round<C: Chart>(chart: &C, numbers: &mut [u32], round: &mut [u16]) -> Option<usize>
    requires numbers { number_places (C.Chart.meaning chart.now).ports ≤ length numbers.old }
    requires round { (C.Chart.meaning chart.now).ports ≤ length round.old }
    ensures found { SomeRound (C.Chart.meaning chart.now) round.new result }
    ensures numbers { RestStays (number_places (C.Chart.meaning chart.now).ports) numbers.old numbers.new }
{
    find_bare(chart, false, numbers, round)
}

// Whether some round takes no hours. Without legs of no hours the first layer tells.
pub fn has_idle_round<C: Chart>(chart: &C, numbers: &mut [u32], round: &mut [u16]) -> bool
    requires numbers { number_places (C.Chart.meaning chart.now).ports ≤ length numbers.old }
    requires round { (C.Chart.meaning chart.now).ports ≤ length round.old }
    ensures idle { TellsIdle (C.Chart.meaning chart.now) result }
    ensures numbers { RestStays (number_places (C.Chart.meaning chart.now).ports) numbers.old numbers.new }
{
    find_bare(chart, true, numbers, round).is_some()
}
