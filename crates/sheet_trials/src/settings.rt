// What a caller sets: the most ports of a chart, and how many places the table has.
use crate::cases::Text::{Line, Whole};
use crate::cases::{Case, try_cases};
use costs::Money;
use limits::refusal::Refusal::{Length, Number, Port};
use std::io;

static REFUSED_PORTS: [Case; 2] = [
    Case {
        name: "the triangle",
        text: Line(1, b"C    3    1\n"),
        answer: Err((Port, 1)),
    },
    Case {
        name: "256 ports without legs",
        text: Whole(b"C  256    1\nE    0         0               0\n"),
        answer: Err((Port, 1)),
    },
];

static THREE_PORTS: [Case; 2] = [
    Case {
        name: "the triangle",
        text: Line(1, b"C    3    1\n"),
        answer: Ok(3),
    },
    Case {
        name: "256 ports without legs",
        text: Whole(b"C  256    1\nE    0         0               0\n"),
        answer: Err((Port, 1)),
    },
];

static ALL_PORTS: [Case; 2] = [
    Case {
        name: "256 ports without legs",
        text: Whole(b"C  256    1\nE    0         0               0\n"),
        answer: Ok(256),
    },
    Case {
        name: "257 ports without legs",
        text: Whole(b"C  257    1\nE    0         0               0\n"),
        answer: Err((Port, 1)),
    },
];

static NO_PLACES: [Case; 2] = [
    Case {
        name: "the triangle",
        text: Line(1, b"C    3    1\n"),
        answer: Err((Number, 2)),
    },
    Case {
        name: "256 ports without legs",
        text: Whole(b"C  256    1\nE    0         0               0\n"),
        answer: Ok(256),
    },
];

static THREE_PLACES: [Case; 1] = [Case {
    name: "the triangle",
    text: Line(1, b"C    3    1\n"),
    answer: Err((Number, 5)),
}];

static ENOUGH_PLACES: [Case; 1] = [Case {
    name: "the triangle",
    text: Line(1, b"C    3    1\n"),
    answer: Ok(3),
}];

static TOO_MANY_PLACES: [Case; 2] = [
    Case {
        name: "the triangle",
        text: Line(1, b"C    3    1\n"),
        answer: Err((Length, 0)),
    },
    Case {
        name: "no text at all",
        text: Whole(b""),
        answer: Err((Length, 0)),
    },
];

fn limit_ports(rt: &HostRuntime) -> io::Result<()> {
    try_cases::<Money>(rt, "At most 0 ports", &REFUSED_PORTS, 0, 4)?;
    try_cases::<Money>(rt, "At most 2 ports", &REFUSED_PORTS, 2, 4)?;
    try_cases::<Money>(rt, "At most 3 ports", &THREE_PORTS, 3, 4)?;
    try_cases::<Money>(
        rt,
        "No limit on ports but the sheets' own",
        &ALL_PORTS,
        usize::MAX,
        4,
    )
}

fn limit_numbers(rt: &HostRuntime) -> io::Result<()> {
    try_cases::<Money>(rt, "A table of 0 places", &NO_PLACES, 256, 0)?;
    try_cases::<Money>(rt, "A table of 3 places", &THREE_PLACES, 256, 3)?;
    try_cases::<Money>(rt, "A table of 9 places", &ENOUGH_PLACES, 256, 9)?;
    try_cases::<Money>(rt, "A table of 4096 places", &ENOUGH_PLACES, 256, 4096)?;
    try_cases::<Money>(rt, "A table of 4097 places", &TOO_MANY_PLACES, 256, 4097)
}

pub fn run(rt: &HostRuntime) -> io::Result<()> {
    limit_ports(rt)?;
    limit_numbers(rt)
}
