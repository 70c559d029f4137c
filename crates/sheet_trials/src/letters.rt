// Wrong letters at the front of a line.
use crate::cases::Text::Line;
use crate::cases::{Case, try_damage};
use limits::refusal::Refusal::Malformed;
use std::io;

static OUTER: [Case; 8] = [
    Case {
        name: "R in place of C",
        text: Line(1, b"R    3    1\n"),
        answer: Err((Malformed, 1)),
    },
    Case {
        name: "a lower c",
        text: Line(1, b"c    3    1\n"),
        answer: Err((Malformed, 1)),
    },
    Case {
        name: "a digit in place of C",
        text: Line(1, b"1    3    1\n"),
        answer: Err((Malformed, 1)),
    },
    Case {
        name: "a blank before C",
        text: Line(1, b" C    3    1\n"),
        answer: Err((Malformed, 1)),
    },
    Case {
        name: "C in place of E",
        text: Line(6, b"C    4       140           -2100\n"),
        answer: Err((Malformed, 6)),
    },
    Case {
        name: "L in place of E",
        text: Line(6, b"L    4       140           -2100\n"),
        answer: Err((Malformed, 6)),
    },
    Case {
        name: "a lower e",
        text: Line(6, b"e    4       140           -2100\n"),
        answer: Err((Malformed, 6)),
    },
    Case {
        name: "a digit in place of E",
        text: Line(6, b"1    4       140           -2100\n"),
        answer: Err((Malformed, 6)),
    },
];

static INNER: [Case; 8] = [
    Case {
        name: "R in place of L",
        text: Line(3, b"R    1    1    0    20        300\n"),
        answer: Err((Malformed, 3)),
    },
    Case {
        name: "C in place of L",
        text: Line(3, b"C    1    1    0    20        300\n"),
        answer: Err((Malformed, 3)),
    },
    Case {
        name: "E in place of L",
        text: Line(3, b"E    1    1    0    20        300\n"),
        answer: Err((Malformed, 3)),
    },
    Case {
        name: "a lower l",
        text: Line(3, b"l    1    1    0    20        300\n"),
        answer: Err((Malformed, 3)),
    },
    Case {
        name: "a digit in place of L",
        text: Line(3, b"1    1    1    0    20        300\n"),
        answer: Err((Malformed, 3)),
    },
    Case {
        name: "a first line again",
        text: Line(3, b"C    3    1\n"),
        answer: Err((Malformed, 3)),
    },
    Case {
        name: "a last line with the sums so far",
        text: Line(3, b"E    1        40           -1200\n"),
        answer: Err((Malformed, 4)),
    },
    Case {
        name: "a leg line before the first line",
        text: Line(1, b"L    0    0    1    40      -1200\nC    3    1\n"),
        answer: Err((Malformed, 1)),
    },
];

pub fn run(rt: &HostRuntime) -> io::Result<()> {
    try_damage(rt, "Wrong letters in the first and the last line", &OUTER)?;
    try_damage(rt, "Wrong letters in a line between", &INNER)
}
