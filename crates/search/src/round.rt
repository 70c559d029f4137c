// The round that a first repeat is: its rate, and its legs from the lowest number on.
ghost use Rattle.std.specs.Prelude.{◌≡◌, ℕ, ◌<◌, ◌≤◌, length, slice_index};
ghost use Rattle.rounds.specs.Lists.{Turned};
ghost use Rattle.pricing.specs.Totals.{Totals};
ghost use Rattle.search.specs.Back.{legs_of};
ghost use Rattle.search.specs.Round.{Traced};

use crate::back::{Repeat, left_port};
use crate::predecessors::number_at;
use charts::Chart;
use costs::{CostKind, Rate};
use pricing::leg_at;

// A round in front of a buffer of leg numbers: how many legs it has, and its rate. The buffer is lent, so that the count
// stands here and not in it.
#[derive(Clone, Copy)]
pub struct Held<K> {
    pub legs: usize,
    pub rate: Rate<K>,
}

// The place of the lowest number.
fn lowest_place(numbers: &[u16]) -> usize
    requires { 0 < length numbers.now }
    ensures place { result < length numbers.now }
    ensures lowest { (i : ℕ) → i < length numbers.now → slice_index numbers.now result ≤ slice_index numbers.now i }
{
    let mut lowest = 0;
    for (i, n) in numbers.iter().enumerate() {
        if *n < numbers[lowest] {
            lowest = i;
        }
    }
    lowest
}

// Turns a list so that its lowest number comes first.
fn turn_to_lowest(numbers: &mut [u16])
    requires { 0 < length numbers.old }
    ensures { Turned numbers.old numbers.new }
{
    let place = lowest_place(numbers);
    numbers.rotate_left(place);
}

// What the legs of a repeat cost and take together. Here and below chart, width and table are passed one by one: more
// repeats are traced in a table than those that lead back in `Predecessors`.
pub fn sum_back<C: Chart>(chart: &C, width: usize, table: &[u32], repeat: Repeat) -> Rate<C::Cost>
    requires { Traced C.Cost.CostKind.kind (C.Chart.meaning chart.now) width table.now repeat }
    ensures { Totals C.Cost.CostKind.row (C.Chart.meaning chart.now) (legs_of (C.Chart.meaning chart.now) width table.now repeat) result.cost result.hours }
{
    let mut cost = C::Cost::zero();
    let mut hours: u64 = 0;
    let mut at = repeat.port;
    for layer in (repeat.layer - repeat.legs..repeat.layer).rev() {
        let leg = leg_at(chart, number_at(table, width, layer, at) - 1);
        cost = leg.cost.plus(cost);
        hours += leg.hours as u64;
        at = leg.from as usize;
    }
    Rate { cost, hours }
}

// Writes the legs of a repeat into a buffer of as many places, the last one first.
fn copy_back<C: Chart>(chart: &C, width: usize, table: &[u32], repeat: Repeat, out: &mut [u16])
    requires repeat { Traced C.Cost.CostKind.kind (C.Chart.meaning chart.now) width table.now repeat }
    requires places { length out.old ≡ repeat.legs }
    ensures { out.new ≡ legs_of (C.Chart.meaning chart.now) width table.now repeat }
{
    let first = repeat.layer - repeat.legs;
    let mut at = repeat.port;
    for layer in (first..repeat.layer).rev() {
        let n = number_at(table, width, layer, at) - 1;
        out[layer - first] = n as u16;
        at = left_port(chart, n);
    }
}

// Writes the legs of a repeat from the lowest number on.
pub fn write_round<C: Chart>(
    chart: &C,
    width: usize,
    table: &[u32],
    repeat: Repeat,
    out: &mut [u16],
)
    requires repeat { Traced C.Cost.CostKind.kind (C.Chart.meaning chart.now) width table.now repeat }
    requires places { length out.old ≡ repeat.legs }
    ensures { Turned (legs_of (C.Chart.meaning chart.now) width table.now repeat) out.new }
{
    copy_back(chart, width, table, repeat, out);
    turn_to_lowest(out);
}
