// Last lines whose sums are off, and charts without legs.
use crate::cases::Text::{Line, Whole};
use crate::cases::{Case, try_damage};
use limits::refusal::Refusal::Malformed;
use std::io;

static OFF_BY_ONE: [Case; 8] = [
    Case {
        name: "one leg line too few",
        text: Line(6, b"E    3       140           -2100\n"),
        answer: Err((Malformed, 6)),
    },
    Case {
        name: "one leg line too many",
        text: Line(6, b"E    5       140           -2100\n"),
        answer: Err((Malformed, 6)),
    },
    Case {
        name: "an hour too few",
        text: Line(6, b"E    4       139           -2100\n"),
        answer: Err((Malformed, 6)),
    },
    Case {
        name: "an hour too many",
        text: Line(6, b"E    4       141           -2100\n"),
        answer: Err((Malformed, 6)),
    },
    Case {
        name: "a dollar too few",
        text: Line(6, b"E    4       140           -2101\n"),
        answer: Err((Malformed, 6)),
    },
    Case {
        name: "a dollar too many",
        text: Line(6, b"E    4       140           -2099\n"),
        answer: Err((Malformed, 6)),
    },
    Case {
        name: "the cost without its minus",
        text: Line(6, b"E    4       140            2100\n"),
        answer: Err((Malformed, 6)),
    },
    Case {
        name: "the right sums",
        text: Line(6, b"E    4       140           -2100\n"),
        answer: Ok(3),
    },
];

static NO_LEGS: [Case; 6] = [
    Case {
        name: "a last line after the first",
        text: Whole(b"C    3    1\nE    0         0               0\n"),
        answer: Ok(3),
    },
    Case {
        name: "a count of 1",
        text: Whole(b"C    3    1\nE    1         0               0\n"),
        answer: Err((Malformed, 2)),
    },
    Case {
        name: "an hour",
        text: Whole(b"C    3    1\nE    0         1               0\n"),
        answer: Err((Malformed, 2)),
    },
    Case {
        name: "a dollar less than nothing",
        text: Whole(b"C    3    1\nE    0         0              -1\n"),
        answer: Err((Malformed, 2)),
    },
    Case {
        name: "a minus zero in the summed cost",
        text: Whole(b"C    3    1\nE    0         0              -0\n"),
        answer: Err((Malformed, 2)),
    },
    Case {
        name: "a leading zero in the count",
        text: Whole(b"C    3    1\nE   00         0               0\n"),
        answer: Err((Malformed, 2)),
    },
];

pub fn run(rt: &HostRuntime) -> io::Result<()> {
    try_damage(rt, "Sums off by one", &OFF_BY_ONE)?;
    try_damage(rt, "Charts without legs", &NO_LEGS)
}
