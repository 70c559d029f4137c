// A first round to improve on: the cheapest cycle of the legs of least rate into each port, or else any round.
// Starting there leaves few rounds to improve on; nothing rests on it but that it is a round.
ghost use Rattle.std.specs.Prelude.{◌≡◌, ◌+◌, ◌<◌, ◌≤◌, length};
ghost use Rattle.charts.specs.Meaning.{Within};
ghost use Rattle.search.specs.Area.{number_places, RestStays};
ghost use Rattle.search.specs.Bare.{SomeRound};
ghost use Rattle.search.specs.First.{Picked, RoundIf};
ghost use Rattle.search.specs.Look.{KnownIf};

use crate::bare::any_round;
use crate::look::{Found, cheaper_of};
use crate::predecessors::{Predecessors, predecessor};
use charts::{Chart, Entry, Leg};
use costs::{CostKind, Rate};
use limits::MOST_PORTS;
use pricing::leg_at;

fn leg_rate<K: CostKind>(leg: Leg<K>) -> Rate<K> {
    Rate {
        cost: leg.cost,
        hours: leg.hours as u64,
    }
}

// Whether a leg is picked in place of the one picked so far, a predecessor: read by `leg_of`, it takes a seventh more
// steps for each entry.
fn is_preferred<C: Chart>(chart: &C, leg: Leg<C::Cost>, pick: usize) -> bool {
    pick == 0 || leg_rate(leg).is_cheaper_than(leg_rate(leg_at(chart, pick - 1)))
}

fn pick_entry<C: Chart>(chart: &C, n: usize, picks: &mut [u32])
    requires within { Within C.Cost.CostKind.kind (C.Chart.meaning chart.now) }
    requires number { n < length (C.Chart.meaning chart.now).entries }
    requires picked { Picked (C.Chart.meaning chart.now) picks.old }
    ensures { Picked (C.Chart.meaning chart.now) picks.new }
{
    if let Entry::Leg(leg) = chart.entry(n) {
        let to = leg.to as usize;
        if is_preferred(chart, leg, picks[to] as usize) {
            picks[to] = predecessor(n);
        }
    }
}

// Picks the leg of least rate into each port.
fn pick_legs<C: Chart>(chart: &C, picks: &mut [u32])
    requires within { Within C.Cost.CostKind.kind (C.Chart.meaning chart.now) }
    requires places { length picks.old ≡ (C.Chart.meaning chart.now).ports }
    ensures { Picked (C.Chart.meaning chart.now) picks.new }
{
    picks.fill(0);
    for n in 0..chart.count() {
        pick_entry(chart, n, picks);
    }
}

// Marks the ports that a walk came through.
fn mark_seen(seen: &[u32], done: &mut [bool]) {
    for (mark, met) in done.iter_mut().zip(seen) {
        if *met > 0 {
            *mark = true;
        }
    }
}

// The cheapest cycle of picks. Unlike in `cheapest_repeat`, a walk from a port that another came through finds no other
// cycle, so there is none: without the marks a ring takes a hundred times as long.
fn cheapest_cycle<C: Chart>(picks: &Predecessors<'_, C>, seen: &mut [u32]) -> Option<Found<C::Cost>>
    requires some { 0 < picks.now.layers }
    requires seen { length seen.old ≡ (C.Chart.meaning picks.now.chart.now).ports }
    ensures { KnownIf C.Cost.CostKind.row (C.Chart.meaning picks.now.chart.now) picks.now.width picks.now.numbers.now picks.now.layers result }
{
    let ports = picks.chart.ports();
    let mut done = [false; MOST_PORTS];
    let mut best: Option<Found<C::Cost>> = None;
    for port in 0..ports {
        if !done[port] {
            // no walk makes these zero where the port has no pick
            seen.fill(0);
            if let Some(found) = picks.repeat_from(port, seen) {
                best = Some(cheaper_of(best, found));
            }
            mark_seen(seen, &mut done);
        }
    }
    best
}

// The cheapest cycle of picks in front of the buffer, where there is one. Picks serve every layer alike, so the rows of
// their table stand no places apart.
fn picked_round<C: Chart>(chart: &C, numbers: &mut [u32], round: &mut [u16]) -> Option<usize>
    requires numbers { let ports = (C.Chart.meaning chart.now).ports in length numbers.old ≡ ports + ports }
    requires round { (C.Chart.meaning chart.now).ports ≤ length round.old }
    ensures { RoundIf (C.Chart.meaning chart.now) round.new result }
{
    let ports = chart.ports();
    let (seen, numbers) = numbers.split_at_mut(ports);
    pick_legs(chart, numbers);
    let picks = Predecessors {
        chart,
        numbers,
        width: 0,
        layers: ports,
    };
    let found = cheapest_cycle(&picks, seen)?;
    Some(picks.write_found(found, round).legs)
}

// Some round, its legs in front of the buffer; or the chart has none.
pub fn first_round<C: Chart>(chart: &C, numbers: &mut [u32], round: &mut [u16]) -> Option<usize>
    requires numbers { number_places (C.Chart.meaning chart.now).ports ≤ length numbers.old }
    requires round { (C.Chart.meaning chart.now).ports ≤ length round.old }
    ensures found { SomeRound (C.Chart.meaning chart.now) round.new result }
    ensures numbers { RestStays (number_places (C.Chart.meaning chart.now).ports) numbers.old numbers.new }
{
    let ports = chart.ports();
    match picked_round(chart, &mut numbers[0..2 * ports], round) {
        Some(legs) => Some(legs),
        None => any_round(chart, numbers, round),
    }
}
