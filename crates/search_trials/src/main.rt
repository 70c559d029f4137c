// Least rounds on every small chart of a family, beside those among all simple cycles, and on large charts.
#![tactic(auto)]

mod cycles;
mod large;
mod small;

fn main(rt: HostRuntime) -> anyhow::Result<()> {
    small::run(&rt)?;
    large::run(&rt)
}
