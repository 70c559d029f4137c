// A whole text, checked line after line before anything is altered.
ghost use Rattle.sheet_reader.specs.Reading.{limits_of, Checks};

use crate::fault::{Bounds, Fault};
use crate::reader::Reader;
use limits::refusal::Refusal;
use sheets::{SheetKind, Tally};

// The tally of a chart sheet, or its first line at fault.
pub fn check_text<K: SheetKind>(text: &[u8], bounds: Bounds) -> Result<Tally, Fault>
    ensures { Checks K.CostKind.kind (limits_of bounds) text.now result }
{
    let mut reader = Reader::Head;
    let mut rest = text;
    let mut line: usize = 1;
    // The line is counted beside what is left of the text, since each line tells its own length and the loop yields the fault with it.
    loop {
        if rest.is_empty() {
            break reader.ended().ok_or(Fault::at(line, Refusal::Malformed));
        }
        match reader.take_line::<K>(bounds, rest) {
            Ok(length) => rest = &rest[length..],
            Err(refusal) => break Err(Fault::at(line, refusal)),
        }
        line += 1;
    }
}
