// Numbers at their limits and one past them.
use crate::cases::Text::{Line, Whole};
use crate::cases::{Case, try_damage};
use limits::refusal::Refusal::{Cost, Hours, Malformed, Number, Port};
use std::io;

static HEADS: [Case; 8] = [
    Case {
        name: "no ports",
        text: Line(1, b"C    0    1\n"),
        answer: Err((Port, 1)),
    },
    Case {
        name: "257 ports",
        text: Line(1, b"C  257    1\n"),
        answer: Err((Port, 1)),
    },
    Case {
        name: "99999 ports",
        text: Line(1, b"C99999    1\n"),
        answer: Err((Port, 1)),
    },
    Case {
        name: "256 ports",
        text: Line(1, b"C  256    1\n"),
        answer: Ok(256),
    },
    Case {
        name: "two places",
        text: Line(1, b"C    3    2\n"),
        answer: Err((Malformed, 1)),
    },
    Case {
        name: "no places",
        text: Line(1, b"C    3    0\n"),
        answer: Err((Malformed, 1)),
    },
    Case {
        name: "no ports and two places",
        text: Line(1, b"C    0    2\n"),
        answer: Err((Malformed, 1)),
    },
    Case {
        name: "one port, and a leg to another",
        text: Line(1, b"C    1    1\n"),
        answer: Err((Port, 2)),
    },
];

static NUMBERS: [Case; 7] = [
    Case {
        name: "a number that does not rise",
        text: Line(4, b"L    0    1    2    30       -600\n"),
        answer: Err((Number, 4)),
    },
    Case {
        name: "a number that repeats",
        text: Line(4, b"L    1    1    2    30       -600\n"),
        answer: Err((Number, 4)),
    },
    Case {
        name: "a number equal to the length of the table",
        text: Line(6, b"L    4    1    0    20        300\n"),
        answer: Err((Number, 6)),
    },
    Case {
        name: "numbers with gaps",
        text: Whole(
            b"C    3    1\nL    1    1    0    20        300\nL    3    2    0    50       -600\nE    2        70            -300\n",
        ),
        answer: Ok(3),
    },
    Case {
        name: "a port left equal to the port count",
        text: Line(3, b"L    1    3    0    20        300\n"),
        answer: Err((Port, 3)),
    },
    Case {
        name: "a port reached equal to the port count",
        text: Line(3, b"L    1    1    3    20        300\n"),
        answer: Err((Port, 3)),
    },
    Case {
        name: "the last port at both ends",
        text: Whole(
            b"C    3    1\nL    0    2    2    20        300\nE    1        20             300\n",
        ),
        answer: Ok(3),
    },
];

static PRICES: [Case; 7] = [
    Case {
        name: "9999 hours",
        text: Whole(
            b"C    3    1\nL    0    0    1  9999        300\nE    1      9999             300\n",
        ),
        answer: Ok(3),
    },
    Case {
        name: "10000 hours",
        text: Whole(
            b"C    3    1\nL    0    0    1 10000        300\nE    1     10000             300\n",
        ),
        answer: Err((Hours, 2)),
    },
    Case {
        name: "no hours and no cost",
        text: Whole(
            b"C    3    1\nL    0    0    1     0          0\nE    1         0               0\n",
        ),
        answer: Ok(3),
    },
    Case {
        name: "999999999 dollars",
        text: Whole(
            b"C    3    1\nL    0    0    1     1  999999999\nE    1         1       999999999\n",
        ),
        answer: Ok(3),
    },
    Case {
        name: "1000000000 dollars",
        text: Whole(
            b"C    3    1\nL    0    0    1     1 1000000000\nE    1         1      1000000000\n",
        ),
        answer: Err((Cost, 2)),
    },
    Case {
        name: "-999999999 dollars",
        text: Whole(
            b"C    3    1\nL    0    0    1     1 -999999999\nE    1         1      -999999999\n",
        ),
        answer: Ok(3),
    },
    Case {
        name: "-1000000000 dollars",
        text: Whole(
            b"C    3    1\nL    0    0    1     1-1000000000\nE    1         1     -1000000000\n",
        ),
        answer: Err((Cost, 2)),
    },
];

pub fn run(rt: &HostRuntime) -> io::Result<()> {
    try_damage(rt, "Ports and places of a chart", &HEADS)?;
    try_damage(rt, "Leg numbers and ports", &NUMBERS)?;
    try_damage(rt, "Hours and costs", &PRICES)
}
