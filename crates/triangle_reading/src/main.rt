// The sheet of the worked example read back, and what is told of it where it is damaged.
#![tactic(auto)]

mod damage;

use std::io;

fn main(rt: HostRuntime) -> io::Result<()> {
    damage::run(&rt)
}
