// Figures at their limits pass, and one more is refused.
use super::telling::tell_answer;
use charts::{Leg, WrittenChart};
use costs::Money;
use limits::refusal::Refusal;
use std::io;

// A leg in a chart of one place, as it is entered.
fn enter_alone(ports: usize, hours: u32, dollars: i64) -> Result<(), Refusal> {
    let mut table = [None];
    WrittenChart::check(ports, &table)?;
    let leg = Leg {
        from: 0,
        to: 0,
        hours,
        cost: Money { dollars },
    };
    WrittenChart::open(ports, &mut table).enter(0, leg)
}

pub fn run(rt: &impl Print) -> io::Result<()> {
    println!(rt; "The limits, and one more:")?;
    for (call, ports, hours, dollars) in [
        ("9999 hours", 1, 9_999, 0),
        ("10000 hours", 1, 10_000, 0),
        ("256 ports", 256, 1, 0),
        ("257 ports", 257, 1, 0),
        ("999999999 dollars", 1, 1, 999_999_999),
        ("1000000000 dollars", 1, 1, 1_000_000_000),
    ] {
        tell_answer(rt, call, enter_alone(ports, hours, dollars))?;
    }
    Ok(())
}
