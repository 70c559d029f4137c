// How charts, answers and rounds are told.
use charts::{Chart, Leg, WrittenChart};
use costs::{CostKind, Rate};
use limits::refusal::Refusal;
use pricing::total;
use std::fmt::Display;
use std::io;

pub fn tell_answer(
    rt: &impl Print,
    call: impl Display + Drop,
    answer: Result<(), Refusal>,
) -> io::Result<()> {
    match answer {
        Ok(()) => println!(rt; "  {call}: done"),
        Err(refusal) => println!(rt; "  {call}: {refusal}"),
    }
}

fn enter_all<K: CostKind>(chart: &mut WrittenChart<K>, legs: &[Leg<K>]) -> Result<(), Refusal> {
    for (n, leg) in legs.iter().enumerate() {
        chart.enter(n, *leg)?;
    }
    Ok(())
}

// A chart of three ports over a table, with the four legs entered under their numbers.
pub fn enter_legs<'a, K: CostKind>(
    rt: &impl Print,
    table: &'a mut [Option<Leg<K>>],
    legs: &[Leg<K>],
) -> io::Result<WrittenChart<'a, K>> {
    let mut chart = WrittenChart::open(3, table);
    tell_answer(rt, "enter legs 0 to 3", enter_all(&mut chart, legs))?;
    Ok(chart)
}

// The leg numbers of a list, a space before each.
pub fn tell_numbers(rt: &impl Print, numbers: &[u16]) -> io::Result<()> {
    for n in numbers {
        print!(rt; " {n}")?;
    }
    Ok(())
}

// The cost and the hours of a round on a chart.
pub fn tell_round<C: Chart>(rt: &impl Print, chart: &C, round: &[u16]) -> io::Result<()>
where
    C::Cost: Display,
{
    let Rate { cost, hours } = total(chart, round);
    print!(rt; "  round")?;
    tell_numbers(rt, round)?;
    println!(rt; " costs {cost} in {hours} hours")
}
