// The chart and its least round as sheets of text.
use super::telling::enter_legs;
use costs::Money;
use pricing::leg_at;
use sheets::{Form, NumberedLeg, write_sheet};
use std::io;
use triangle_facts::triangle_at;

// The sheet of these legs, written into a buffer of its own and printed.
fn tell_sheet(rt: &impl Print, form: Form, legs: &[NumberedLeg<Money>]) -> io::Result<()> {
    let mut out = [0; 256];
    match write_sheet(form, 3, legs, &mut out) {
        Ok(length) => {
            // cut at the buffer: the contract tells the length of the sheet and states no bound of it
            for byte in &out[..length.min(256)] {
                print!(rt; "{}", char::from(*byte))?;
            }
            Ok(())
        }
        Err(refusal) => println!(rt; "  {refusal}"),
    }
}

pub fn run(rt: &impl Print) -> io::Result<()> {
    let mut table = [None; 4];
    println!(rt; "The chart as a sheet:")?;
    let chart = enter_legs(rt, &mut table, &triangle_at(300))?;
    let legs = [0, 1, 2, 3].map(|number| NumberedLeg {
        number,
        leg: leg_at(&chart, number),
    });
    tell_sheet(rt, Form::Chart, &legs)?;
    println!(rt; "The round 0 2 3 as a sheet:")?;
    tell_sheet(rt, Form::Round, &[legs[0], legs[2], legs[3]])?;
    println!(rt; "Numbers that do not rise, as a chart sheet:")?;
    tell_sheet(rt, Form::Chart, &[legs[2], legs[0]])
}
