// Every chart of a family of at most three ports and four small legs, against its simple cycles.
ghost use Rattle.std.specs.Prelude.{◌≤◌};

use crate::cycles::Cycles;
use charts::{Leg, WrittenChart};
use costs::{Money, Rate};
use limits::refusal::Refusal;
use search::{Held, find_least};
use std::io;

// How many charts were tried, and what was found on them.
#[derive(Clone, Copy, Default)]
struct Tally {
    least: u64,
    idle: u64,
    none: u64,
    wrong: u64,
}

impl Tally {
    // One chart more; it is wrong where the cycles tell otherwise.
    fn count(&mut self, found: Result<Held<Money>, Refusal>, cycles: Cycles) {
        let counter = match (found, cycles.cheapest) {
            (Err(Refusal::IdleRound), _) if cycles.idle => &mut self.idle,
            (Err(Refusal::NoRound), None) => &mut self.none,
            (Ok(held), Some(best)) if !cycles.idle && are_level(held.rate, best) => &mut self.least,
            _ => &mut self.wrong,
        };
        *counter = counter.saturating_add(1);
    }
}

fn are_level(a: Rate<Money>, b: Rate<Money>) -> bool {
    !a.is_cheaper_than(b) && !b.is_cheaper_than(a)
}

// A family of charts: so many ports, and legs between any two of them with one of these hours and costs.
#[derive(Clone, Copy)]
struct Family<'a> {
    ports: usize,
    hours: &'a [u32],
    costs: &'a [i64],
}

impl<'a> Family<'a> {
    // How many codes a place has: one for no leg, and one for each pair of ports, hours and cost.
    fn codes(&self) -> usize {
        let pairs = self.ports.saturating_mul(self.ports);
        let prices = self.hours.len().saturating_mul(self.costs.len());
        pairs.saturating_mul(prices).saturating_add(1)
    }

    // The place of a code: 0 for none, and else a leg. By division, since a list of all places would take four loops in one another.
    fn place(&self, code: usize) -> Option<Leg<Money>> {
        let n = code.checked_sub(1)?;
        let from = u16::try_from(n.checked_rem(self.ports)?).ok()?;
        let n = n.checked_div(self.ports)?;
        let to = u16::try_from(n.checked_rem(self.ports)?).ok()?;
        let n = n.checked_div(self.ports)?;
        let hours = *self.hours.get(n.checked_rem(self.hours.len())?)?;
        let dollars = *self.costs.get(n.checked_div(self.hours.len())?)?;
        Some(Leg {
            from,
            to,
            hours,
            cost: Money { dollars },
        })
    }

    // The places of the chart of a number, one digit each.
    fn fill(&self, table: &mut [Option<Leg<Money>>], number: usize) {
        let codes = self.codes();
        let mut rest = number;
        for slot in table.iter_mut() {
            *slot = self.place(rest.checked_rem(codes).unwrap_or(0));
            rest = rest.checked_div(codes).unwrap_or(0);
        }
    }
}

fn try_chart(tally: &mut Tally, ports: usize, table: &mut [Option<Leg<Money>>]) {
    let cycles = Cycles::of(table);
    let mut costs = [Money { dollars: 0 }; 9];
    let mut numbers = [0; 12];
    let mut round = [0; 3];
    let chart = WrittenChart::open(ports, table);
    tally.count(
        find_least(&chart, &mut costs, &mut numbers, &mut round),
        cycles,
    );
}

// Every chart of the family of so many places.
fn try_family<const PLACES: usize>(family: Family) -> Tally
    requires { PLACES ≤ 4 }
{
    let mut tally = Tally::default();
    let codes = family.codes();
    let charts = (0..PLACES).fold(1, |all: usize, _| all.saturating_mul(codes));
    for number in 0..charts {
        let mut table: [Option<Leg<Money>>; PLACES] = [None; PLACES];
        family.fill(&mut table, number);
        try_chart(&mut tally, family.ports, &mut table);
    }
    tally
}

fn tell(rt: &impl Print, name: &str, tally: Tally) -> io::Result<()> {
    println!(rt;
        "{name}: a least round on {}, an idle one on {}, none on {}",
        tally.least, tally.idle, tally.none
    )?;
    println!(rt;
        "  charts on which the cycles tell otherwise: {}",
        tally.wrong
    )
}

pub fn run(rt: &impl Print) -> io::Result<()> {
    let more = Family {
        ports: 1,
        hours: &[0, 2, 3],
        costs: &[-3, -2, 0, 1],
    };
    let one_port = try_family::<4>(more);
    tell(rt, "One port, four legs, hours 0, 2 and 3", one_port)?;
    let two_ports = try_family::<3>(Family { ports: 2, ..more });
    tell(rt, "Two ports, three legs, hours 0, 2 and 3", two_ports)?;
    let three_ports = try_family::<3>(Family { ports: 3, ..more });
    tell(rt, "Three ports, three legs, hours 0, 2 and 3", three_ports)?;
    let few = Family {
        ports: 3,
        hours: &[0, 1],
        costs: &[-1, 2],
    };
    tell(
        rt,
        "Three ports, four legs, hours 0 and 1",
        try_family::<4>(few),
    )
}
