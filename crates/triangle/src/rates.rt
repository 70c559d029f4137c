// The rates of the two rounds of the triangle, priced through a chart and compared by multiplying across.
use super::telling::{enter_legs, tell_round};
use charts::Leg;
use costs::{CostKind, Rate};
use pricing::total;
use std::fmt::Display;
use std::io;
use triangle_facts::{LONG_ROUND, SHORT_ROUND, triangle_at, triangle_with_tonnes};

fn tell_cheaper<K: CostKind>(rt: &impl Print, short: Rate<K>, long: Rate<K>) -> io::Result<()> {
    if short.is_cheaper_than(long) {
        println!(rt; "  round 0 1 is cheaper")
    } else if long.is_cheaper_than(short) {
        println!(rt; "  round 0 2 3 is cheaper")
    } else {
        println!(rt; "  the rounds are level")
    }
}

// The two rounds of a chart of these legs, over a table.
fn tell_rounds<K: CostKind + Display>(
    rt: &impl Print,
    table: &mut [Option<Leg<K>>],
    legs: &[Leg<K>],
) -> io::Result<()> {
    let chart = enter_legs(rt, table, legs)?;
    tell_round(rt, &chart, &SHORT_ROUND)?;
    tell_round(rt, &chart, &LONG_ROUND)?;
    tell_cheaper(rt, total(&chart, &SHORT_ROUND), total(&chart, &LONG_ROUND))
}

// Leg 1 at three prices; and level in dollars, so that the tonnes decide.
pub fn run(rt: &impl Print) -> io::Result<()> {
    for leg_1 in [300, 0, -1] {
        println!(rt; "Leg 1 costs {leg_1} dollars:")?;
        tell_rounds(rt, &mut [None; 4], &triangle_at(leg_1))?;
    }
    println!(rt; "Leg 1 costs 0 dollars, and the legs burn 40, 20, 30 and 60 tonnes:")?;
    tell_rounds(rt, &mut [None; 4], &triangle_with_tonnes())
}
