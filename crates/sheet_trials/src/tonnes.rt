// Sheets of two places: dollars, then tonnes.
use crate::cases::Text::{Line, Whole};
use crate::cases::{Case, try_cases, try_damage};
use costs::MoneyTonnes;
use limits::refusal::Refusal::{Cost, Malformed};
use std::io;

static SUMS: [Case; 5] = [
    Case {
        name: "the right sums",
        text: Whole(
            b"C    2    2\nL    0    0    1    40      -1200         40\nL    2    1    0    20        300        -60\nE    2        60            -900             -20\n",
        ),
        answer: Ok(2),
    },
    Case {
        name: "a tonne too many",
        text: Whole(
            b"C    2    2\nL    0    0    1    40      -1200         40\nL    2    1    0    20        300        -60\nE    2        60            -900             -19\n",
        ),
        answer: Err((Malformed, 4)),
    },
    Case {
        name: "a dollar too few",
        text: Whole(
            b"C    2    2\nL    0    0    1    40      -1200         40\nL    2    1    0    20        300        -60\nE    2        60            -901             -20\n",
        ),
        answer: Err((Malformed, 4)),
    },
    Case {
        name: "dollars and tonnes exchanged in the sums",
        text: Whole(
            b"C    2    2\nL    0    0    1    40      -1200         40\nL    2    1    0    20        300        -60\nE    2        60             -20            -900\n",
        ),
        answer: Err((Malformed, 4)),
    },
    Case {
        name: "the sum of the tonnes missing",
        text: Whole(
            b"C    2    2\nL    0    0    1    40      -1200         40\nL    2    1    0    20        300        -60\nE    2        60            -900\n",
        ),
        answer: Err((Malformed, 4)),
    },
];

static PLACES: [Case; 6] = [
    Case {
        name: "a sheet in dollars",
        text: Line(1, b"C    3    1\n"),
        answer: Err((Malformed, 1)),
    },
    Case {
        name: "leg lines in dollars",
        text: Line(1, b"C    3    2\n"),
        answer: Err((Malformed, 2)),
    },
    Case {
        name: "a leading zero in the tonnes",
        text: Whole(b"C    2    2\nL    0    0    1    40      -1200        040\n"),
        answer: Err((Malformed, 2)),
    },
    Case {
        name: "1000000000 tonnes",
        text: Whole(b"C    2    2\nL    0    0    1    40      -1200 1000000000\n"),
        answer: Err((Cost, 2)),
    },
    Case {
        name: "-1000000000 dollars",
        text: Whole(b"C    2    2\nL    0    0    1    40-1000000000         40\n"),
        answer: Err((Cost, 2)),
    },
    Case {
        name: "999999999 tonnes and -999999999 dollars",
        text: Whole(
            b"C    2    2\nL    0    0    1    40 -999999999  999999999\nE    1        40      -999999999       999999999\n",
        ),
        answer: Ok(2),
    },
];

// The first case of the sums, in the other kind.
static IN_DOLLARS: [Case; 1] = [Case {
    name: "a sheet in dollars then tonnes",
    text: Whole(
        b"C    2    2\nL    0    0    1    40      -1200         40\nL    2    1    0    20        300        -60\nE    2        60            -900             -20\n",
    ),
    answer: Err((Malformed, 1)),
}];

pub fn run(rt: &HostRuntime) -> io::Result<()> {
    try_cases::<MoneyTonnes>(rt, "Dollars then tonnes, and their sums", &SUMS, 256, 3)?;
    try_cases::<MoneyTonnes>(rt, "Read as dollars then tonnes", &PLACES, 256, 3)?;
    try_damage(rt, "Read as dollars", &IN_DOLLARS)
}
