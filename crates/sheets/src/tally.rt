// What is counted of the lines of a sheet so far, as it is written or read: plain numbers, since the bytes come with each call.
mod counting;
pub(crate) mod refusing;

ghost use Rattle.std.specs.Prelude.{◌+◌, ◌*◌, ◌≤◌};
ghost use Rattle.limits.specs.Numbers.{most_legs, most_hours, most_cost, most_places};
ghost use Rattle.sheets.specs.Places.{row_of, largest};
ghost use Rattle.sheets.specs.Form.{head_length, leg_length};

use crate::form::Form;
use crate::places::Places;

#[derive(Drop)]
pub struct Tally {
    pub form: Form,
    pub ports: usize,
    // the place after the lines so far
    pub end: usize,
    // how many leg lines there are
    pub legs: usize,
    // the lowest number that the next leg may have
    pub least: usize,
    pub hours: u64,
    pub cost: Places,
    ghost few: { legs ≤ most_legs },
    ghost near: { end ≤ head_length + legs * leg_length most_places },
    ghost timed: { hours ≤ legs * most_hours },
    ghost priced: { largest (row_of cost) ≤ legs * most_cost },
}
