// A round on a chart: what it costs and takes there, and whether it is still there.
#![tactic(auto)]

pub mod kept;
pub mod totals;

pub use kept::{KeptLeg, still_there};
pub use totals::{leg_at, total};
