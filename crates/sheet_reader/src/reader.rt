// A reader between two lines of a chart sheet.
mod taking;

use sheets::Tally;

// What is wanted next, with the tally of the lines so far.
#[derive(Drop)]
pub enum Reader {
    // the first line
    Head,
    // a leg line or the end line
    Legs(Tally),
    // nothing more
    Ended(Tally),
}
