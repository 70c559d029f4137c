// The least round of the triangle, as it is found, and the marks of the ports against it.
use super::piles::port_2_closed;
use super::telling::{enter_legs, tell_answer, tell_numbers};
use charts::{Chart, Layered, Leg, WrittenChart};
use costs::{Money, Rate};
use search::{clear_area, find_least};
use std::io;
use triangle_facts::triangle_at;

fn tell_marks(rt: &impl Print, marks: &[Money]) -> io::Result<()> {
    print!(rt; "  marks")?;
    for mark in marks {
        print!(rt; " {}", mark.dollars)?;
    }
    println!(rt; "")
}

// A round and its rate, and the marks against it.
fn tell_found(
    rt: &impl Print,
    rate: Rate<Money>,
    round: &[u16],
    marks: &[Money],
) -> io::Result<()> {
    let Rate { cost, hours } = rate;
    print!(rt; "  least round")?;
    tell_numbers(rt, round)?;
    println!(rt; ", {cost} in {hours} hours")?;
    tell_marks(rt, marks)
}

// The least round of a chart of three ports at most, found in a work area of its own.
fn tell_least(rt: &impl Print, chart: &impl Chart<Cost = Money>) -> io::Result<()> {
    let mut costs = [Money { dollars: 0 }; 9];
    let mut numbers = [0; 12];
    let mut round = [0; 3];
    match find_least(chart, &mut costs, &mut numbers, &mut round) {
        // cut at the buffer, since what bounds the legs is the ports of the chart, and any chart may come
        Ok(held) => tell_found(rt, held.rate, &round[..held.legs.min(3)], &costs[..3])?,
        Err(refusal) => println!(rt; "  {refusal}")?,
    }
    clear_area(3, &mut costs, &mut numbers);
    Ok(())
}

fn tell_closed(rt: &impl Print, chart: &impl Chart<Cost = Money>) -> io::Result<()> {
    println!(rt; "  port 2 closed")?;
    tell_least(rt, &Layered::new(chart, port_2_closed()))
}

fn reprice_leg_1(rt: &impl Print, chart: &mut WrittenChart<Money>, dollars: i64) -> io::Result<()> {
    let cost = Money { dollars };
    tell_answer(
        rt,
        format_args!("reprice 1 to {cost}"),
        chart.reprice(1, 20, cost),
    )
}

// The triangle with leg 1 at its price, then level, then one dollar cheaper, then with port 2 closed.
fn priced_anew(rt: &impl Print, chart: &mut WrittenChart<Money>) -> io::Result<()> {
    println!(rt; "Searching the chart:")?;
    tell_least(rt, chart)?;
    for dollars in [0, -1] {
        reprice_leg_1(rt, chart, dollars)?;
        tell_least(rt, chart)?;
    }
    reprice_leg_1(rt, chart, 300)?;
    tell_closed(rt, chart)
}

// Legs 0 and 2 alone close no round; a leg of no hours from port 1 to itself is an idle one.
fn without_a_way_back(rt: &impl Print, chart: &mut WrittenChart<Money>) -> io::Result<()> {
    println!(rt; "Legs 0 and 2 only:")?;
    tell_answer(rt, "withdraw 1", chart.withdraw(1))?;
    tell_answer(rt, "withdraw 3", chart.withdraw(3))?;
    tell_least(rt, chart)?;
    let idle = Leg {
        from: 1,
        to: 1,
        hours: 0,
        cost: Money { dollars: 0 },
    };
    tell_answer(
        rt,
        "enter under 1, from port 1 to 1 in 0 hours",
        chart.enter(1, idle),
    )?;
    tell_least(rt, chart)
}

pub fn run(rt: &impl Print) -> io::Result<()> {
    let mut table = [None; 4];
    println!(rt; "The least round:")?;
    let mut chart = enter_legs(rt, &mut table, &triangle_at(300))?;
    priced_anew(rt, &mut chart)?;
    without_a_way_back(rt, &mut chart)
}
