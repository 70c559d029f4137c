// The four legs are entered in a written chart, and each refusal of the edits is tried.
use super::telling::{enter_legs, tell_answer};
use charts::{Leg, WrittenChart};
use costs::Money;
use std::io;
use triangle_facts::{Listing, legs_at, triangle_at};

const FREE: Money = Money { dollars: 0 };

const DEAR: Money = Money {
    dollars: 1_000_000_000,
};

fn refused_enters(rt: &impl Print, chart: &mut WrittenChart<Money>) -> io::Result<()> {
    let [leg_0, ..] = legs_at([FREE; 4]);
    let hour = Leg { hours: 1, ..leg_0 };
    let past = Leg { to: 3, ..hour };
    let long = Leg {
        hours: 10_000,
        ..hour
    };
    let dear = Leg { cost: DEAR, ..hour };
    for (call, n, leg) in [
        ("enter under 6, past the table", 6, leg_0),
        ("enter under 0 again", 0, leg_0),
        ("enter under 4 to port 3", 4, past),
        ("enter under 4 with 10000 hours", 4, long),
        ("enter under 4 at 1000000000 dollars", 4, dear),
    ] {
        tell_answer(rt, call, chart.enter(n, leg))?;
    }
    Ok(())
}

fn other_refused_edits(rt: &impl Print, chart: &mut WrittenChart<Money>) -> io::Result<()> {
    tell_answer(rt, "withdraw 4, a blank", chart.withdraw(4))?;
    tell_answer(rt, "withdraw 6, past the table", chart.withdraw(6))?;
    for (call, n, hours, cost) in [
        ("reprice 4, a blank", 4, 1, FREE),
        ("reprice 1 to 10000 hours", 1, 10_000, FREE),
        ("reprice 1 to 1000000000 dollars", 1, 20, DEAR),
    ] {
        tell_answer(rt, call, chart.reprice(n, hours, cost))?;
    }
    Ok(())
}

fn edits_done(rt: &impl Print, chart: &mut WrittenChart<Money>) -> io::Result<()> {
    tell_answer(
        rt,
        "reprice 1 to 20 hours at 0 dollars",
        chart.reprice(1, 20, FREE),
    )?;
    tell_answer(rt, "withdraw 3", chart.withdraw(3))
}

pub fn run(rt: &impl Print) -> io::Result<()> {
    println!(rt; "A chart of 3 ports over a table of 6 places:")?;
    let mut table = [None; 6];
    let mut chart = enter_legs(rt, &mut table, &triangle_at(300))?;
    refused_enters(rt, &mut chart)?;
    other_refused_edits(rt, &mut chart)?;
    edits_done(rt, &mut chart)?;
    println!(rt; "The chart then shows:")?;
    print!(rt; "{}", Listing(&chart))
}
