// The longest sheet: as many legs as a chart can have, each at its limits.
use crate::back::comes_back;
use crate::cases::Text::Longest;
use crate::cases::{Case, try_cases};
use crate::longest::{MOST_DOLLARS, longest};
use crate::tables::listed;
use costs::Money;
use limits::refusal::Refusal::{Malformed, Number};
use sheets::{Form, write_sheet};
use std::io;

const BLANK: u8 = b'.';

static ENDS: [Case; 7] = [
    Case {
        name: "the right sums",
        text: Longest(b"E 4096  40955904               0\n"),
        answer: Ok(256),
    },
    Case {
        name: "an hour too many",
        text: Longest(b"E 4096  40955905               0\n"),
        answer: Err((Malformed, 4098)),
    },
    Case {
        name: "a dollar too few",
        text: Longest(b"E 4096  40955904              -1\n"),
        answer: Err((Malformed, 4098)),
    },
    Case {
        name: "the last line missing",
        text: Longest(b""),
        answer: Err((Malformed, 4098)),
    },
    Case {
        name: "a byte left over",
        text: Longest(b"E 4096  40955904               0\n\n"),
        answer: Err((Malformed, 4099)),
    },
    Case {
        name: "a leg line more, numbered 4096",
        text: Longest(b"L 4096    0    0     1          1\nE 4097  40955905               1\n"),
        answer: Err((Number, 4098)),
    },
    Case {
        name: "a leg line more, numbered 4095",
        text: Longest(b"L 4095    0    0     1          1\nE 4097  40955905               1\n"),
        answer: Err((Number, 4098)),
    },
];

fn back_and_forth(rt: &HostRuntime, even: i64, odd: i64) -> io::Result<()> {
    let table = longest(rt.alloc(), even, odd)?;
    let same = comes_back(rt.alloc(), 256, table.as_slice())?;
    println!(rt; "  {even} and {odd} dollars: the same legs and bytes come back: {same}")
}

// Whether some zeros stand at the front, and every other byte is still as it was filled.
fn is_struck(buffer: &[u8]) -> bool {
    buffer.first() == Some(&0)
        && buffer
            .iter()
            .skip_while(|byte| **byte == 0)
            .all(|byte| *byte == BLANK)
}

// The longest sheet into a buffer of so many bytes.
fn write_into(rt: &HostRuntime, bytes: usize) -> io::Result<()> {
    let table = longest(rt.alloc(), MOST_DOLLARS, -MOST_DOLLARS)?;
    let legs = listed(rt.alloc(), table.as_slice())?;
    let mut out = vec![in rt.alloc(); BLANK; bytes]?;
    match write_sheet(Form::Chart, 256, legs.as_slice(), &mut out) {
        Ok(length) => println!(rt; "  into {bytes} bytes: written, {length} bytes"),
        Err(refusal) => {
            let struck = is_struck(out.as_slice());
            println!(rt; "  into {bytes} bytes: {refusal}; what was written is struck: {struck}")
        }
    }
}

pub fn run(rt: &HostRuntime) -> io::Result<()> {
    try_cases::<Money>(rt, "4096 legs, and how their sheet ends", &ENDS, 256, 4096)?;
    println!(rt; "4096 legs, written, read back and written again:")?;
    back_and_forth(rt, MOST_DOLLARS, MOST_DOLLARS)?;
    back_and_forth(rt, -MOST_DOLLARS, -MOST_DOLLARS)?;
    back_and_forth(rt, MOST_DOLLARS, -MOST_DOLLARS)?;
    println!(rt; "4096 legs, written into a buffer:")?;
    write_into(rt, 139_309)?;
    write_into(rt, 139_308)
}
