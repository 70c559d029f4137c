// Chart sheets read into a table of legs: all of it, or the first line at fault and the table as it was.
#![tactic(auto)]

mod checking;
mod fault;
mod filling;
mod line;
mod reader;
mod reading;

pub use fault::Fault;
pub use reading::read_sheet;
