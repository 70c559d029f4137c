// The worked example from start to finish: three ports, four legs, and which round costs least per hour.
#![tactic(auto)]

mod edges;
mod edits;
mod least;
mod piles;
mod rates;
mod telling;
mod texts;

use std::io;
use triangle_facts::triangle_figures_stand;

fn main(rt: HostRuntime) -> io::Result<()> {
    // What is printed below of best rounds, marks and layers is proved of the definitions there.
    triangle_figures_stand();
    println!(rt; "The triangle: three ports and four legs.")?;
    edits::run(&rt)?;
    rates::run(&rt)?;
    piles::run(&rt)?;
    least::run(&rt)?;
    texts::run(&rt)?;
    edges::run(&rt)
}
