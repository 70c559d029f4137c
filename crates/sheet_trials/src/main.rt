// The reader and the writer of sheets tried on damaged sheets, at their limits, and back and forth.
#![tactic(auto)]

mod back;
mod bounds;
mod cases;
mod generated;
mod largest;
mod letters;
mod longest;
mod missing;
mod numerals;
mod order;
mod settings;
mod sums;
mod tables;
mod tonnes;

use std::io;

fn main(rt: HostRuntime) -> io::Result<()> {
    missing::run(&rt)?;
    letters::run(&rt)?;
    numerals::run(&rt)?;
    sums::run(&rt)?;
    bounds::run(&rt)?;
    order::run(&rt)?;
    settings::run(&rt)?;
    tonnes::run(&rt)?;
    largest::run(&rt)?;
    generated::run(&rt)
}
