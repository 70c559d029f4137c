// Stays, closures and hire piled on the triangle in more than one order.
ghost use Rattle.std.specs.Prelude.{◌≡◌, true, nat_le};
ghost use Rattle.limits.specs.Numbers.{most_cost};
ghost use Rattle.rows.specs.Rows.{one_place};
ghost use Rattle.rows.specs.Orders.{by_dollars};
ghost use Rattle.charts.specs.Meaning.{shown_at};
ghost use Rattle.charts.specs.Reading.{entry_shown};
ghost use Rattle.charts.specs.Stays.{all_short};
ghost use Rattle.charts.specs.Layers.{layered, with_stay, unless_closed, with_hire};
ghost use Rattle.triangle_facts.specs.Triangle.{dollars, only_port_2};
ghost use Rattle.triangle_facts.specs.Triangle.{stay_in_port_0 as stay_there};

use super::telling::{enter_legs, tell_round};
use charts::{Chart, Closures, Entry, Hire, Layered, Stays};
use costs::Money;
use std::io;
use triangle_facts::{LONG_ROUND, SHORT_ROUND, triangle_at};

// Closures on stays on hire on any chart in dollars.
type HireBeneath<C> = Layered<Layered<Layered<C, Hire<Money>>, Stays>, Closures>;

// Hire on stays on closures on any chart in dollars.
type HireOnTop<C> = Layered<Layered<Layered<C, Closures>, Stays>, Hire<Money>>;

// A pile shows its layers' rules, one on the other.
fn entry_beneath<C: Chart<Cost = Money>>(pile: &HireBeneath<C>, n: usize) -> Entry<Money>
    ensures { let top = pile.now in
        let stays = top.chart.layer.hours in
        let hire = one_place top.chart.chart.layer.cost.dollars in
        let hired = layered by_dollars (with_hire hire) (nat_le (by_dollars.size hire) most_cost) (C.Chart.meaning top.chart.chart.chart) in
        entry_shown (λ c. one_place c.dollars) result ≡
        shown_at (layered by_dollars (unless_closed top.layer.closed) true (layered by_dollars (with_stay stays) (all_short stays) hired)) n }
{
    pile.entry(n)
}

fn entry_on_top<C: Chart<Cost = Money>>(pile: &HireOnTop<C>, n: usize) -> Entry<Money>
    ensures { let top = pile.now in
        let stays = top.chart.layer.hours in
        let hire = one_place top.layer.cost.dollars in
        let unclosed = layered by_dollars (unless_closed top.chart.chart.layer.closed) true (C.Chart.meaning top.chart.chart.chart) in
        entry_shown (λ c. one_place c.dollars) result ≡
        shown_at (layered by_dollars (with_hire hire) (nat_le (by_dollars.size hire) most_cost) (layered by_dollars (with_stay stays) (all_short stays) unclosed)) n }
{
    pile.entry(n)
}

// Ten hours in port 0, and none elsewhere.
fn stay_in_port_0() -> Stays
    ensures { result.hours ≡ stay_there }
{
    let mut hours = [0; 256];
    hours[0] = 10;
    Stays::new(hours)
}

pub fn port_2_closed() -> Closures
    ensures { result.closed ≡ only_port_2 }
{
    let mut closed = [false; 256];
    closed[2] = true;
    Closures::new(closed)
}

fn none_closed() -> Closures {
    Closures::new([false; 256])
}

fn hire_of_5() -> Hire<Money>
    ensures { one_place result.cost.dollars ≡ dollars 5 }
{
    Hire::new(Money { dollars: 5 })
}

fn tell_stay(rt: &impl Print, chart: &impl Chart<Cost = Money>) -> io::Result<()> {
    println!(rt; "A stay of 10 hours in port 0:")?;
    tell_round(rt, &Layered::new(chart, stay_in_port_0()), &LONG_ROUND)
}

fn tell_hire_on_top(rt: &impl Print, chart: &impl Chart<Cost = Money>) -> io::Result<()> {
    println!(rt; "Hire of 5 dollars an hour on top of it:")?;
    let stays = Layered::new(Layered::new(chart, none_closed()), stay_in_port_0());
    let pile = Layered::new(stays, hire_of_5());
    println!(rt; "  3: {}", entry_on_top(&pile, 3))?;
    tell_round(rt, &pile, &LONG_ROUND)
}

fn tell_hire_beneath(rt: &impl Print, chart: &impl Chart<Cost = Money>) -> io::Result<()> {
    println!(rt; "Hire of 5 dollars an hour beneath it:")?;
    let stays = Layered::new(Layered::new(chart, hire_of_5()), stay_in_port_0());
    let pile = Layered::new(stays, none_closed());
    println!(rt; "  3: {}", entry_beneath(&pile, 3))?;
    tell_round(rt, &pile, &LONG_ROUND)
}

fn tell_closed(rt: &impl Print, chart: &impl Chart<Cost = Money>) -> io::Result<()> {
    println!(rt; "Port 2 closed:")?;
    let pile = Layered::new(chart, port_2_closed());
    println!(rt; "  2: {}", pile.entry(2))?;
    tell_round(rt, &pile, &SHORT_ROUND)
}

pub fn run(rt: &impl Print) -> io::Result<()> {
    let mut table = [None; 4];
    println!(rt; "The triangle under layers:")?;
    let chart = enter_legs(rt, &mut table, &triangle_at(300))?;
    tell_stay(rt, &chart)?;
    tell_hire_on_top(rt, &chart)?;
    tell_hire_beneath(rt, &chart)?;
    tell_closed(rt, &chart)
}
