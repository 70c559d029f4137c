// Several faults at once: the order of the refusals, and the first line before a later one.
use crate::cases::Text::Line;
use crate::cases::{Case, try_damage};
use limits::refusal::Refusal::{Cost, Hours, Malformed, Number, Port};
use std::io;

static ONE_LINE: [Case; 7] = [
    Case {
        name: "the number, a port, the hours and the cost",
        text: Line(3, b"L    0    3    0 10000 1000000000\n"),
        answer: Err((Number, 3)),
    },
    Case {
        name: "a port, the hours and the cost",
        text: Line(3, b"L    1    1    3 10000 1000000000\n"),
        answer: Err((Port, 3)),
    },
    Case {
        name: "the hours and the cost",
        text: Line(3, b"L    1    1    0 10000 1000000000\n"),
        answer: Err((Hours, 3)),
    },
    Case {
        name: "the cost alone",
        text: Line(3, b"L    1    1    0    20 1000000000\n"),
        answer: Err((Cost, 3)),
    },
    Case {
        name: "the number, and a malformed cost",
        text: Line(3, b"L    0    1    0    20       0300\n"),
        answer: Err((Malformed, 3)),
    },
    Case {
        name: "a port, and no line feed",
        text: Line(3, b"L    1    3    0    20        300 "),
        answer: Err((Malformed, 3)),
    },
    Case {
        name: "every column, and the letter",
        text: Line(3, b"R   00   -1   +3 10000 1000000000\n"),
        answer: Err((Malformed, 3)),
    },
];

static TWO_LINES: [Case; 6] = [
    Case {
        name: "no ports, then a malformed line",
        text: Line(1, b"C    0    1\n\n"),
        answer: Err((Port, 1)),
    },
    Case {
        name: "too many hours, then a malformed line",
        text: Line(3, b"L    1    1    0 10000        300\n\n"),
        answer: Err((Hours, 3)),
    },
    Case {
        name: "a number that repeats, then a wrong port",
        text: Line(
            3,
            b"L    0    1    0    20        300\nL    1    3    0    20        300\n",
        ),
        answer: Err((Number, 3)),
    },
    Case {
        name: "too dear, then a number that repeats",
        text: Line(
            3,
            b"L    1    1    0    20 1000000000\nL    1    1    0    20        300\n",
        ),
        answer: Err((Cost, 3)),
    },
    Case {
        name: "a wrong port, then sums off by one",
        text: Line(
            5,
            b"L    3    2    3    50       -600\nE    4       140           -2101\n",
        ),
        answer: Err((Port, 5)),
    },
    Case {
        name: "sums off by one, then text left over",
        text: Line(6, b"E    4       140           -2101\n\n"),
        answer: Err((Malformed, 6)),
    },
];

pub fn run(rt: &HostRuntime) -> io::Result<()> {
    try_damage(rt, "Several faults in one line", &ONE_LINE)?;
    try_damage(rt, "Faults in two lines", &TWO_LINES)
}
