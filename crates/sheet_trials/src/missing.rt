// Texts that end too soon or go on too long, and lines that are not lines of a sheet.
use crate::cases::Text::{Line, Whole};
use crate::cases::{Case, try_damage};
use limits::refusal::Refusal::Malformed;
use std::io;

static TOO_SHORT: [Case; 8] = [
    Case {
        name: "no text at all",
        text: Whole(b""),
        answer: Err((Malformed, 1)),
    },
    Case {
        name: "one letter",
        text: Whole(b"C"),
        answer: Err((Malformed, 1)),
    },
    Case {
        name: "the first line broken off",
        text: Whole(b"C    3"),
        answer: Err((Malformed, 1)),
    },
    Case {
        name: "the first line alone",
        text: Whole(b"C    3    1\n"),
        answer: Err((Malformed, 2)),
    },
    Case {
        name: "the last line broken off",
        text: Line(6, b"E    4       140"),
        answer: Err((Malformed, 6)),
    },
    Case {
        name: "no final line feed",
        text: Line(6, b"E    4       140           -2100"),
        answer: Err((Malformed, 6)),
    },
    Case {
        name: "the last line missing",
        text: Line(6, b""),
        answer: Err((Malformed, 6)),
    },
    Case {
        name: "the first line missing",
        text: Line(1, b""),
        answer: Err((Malformed, 1)),
    },
];

static CUT_WITHIN: [Case; 4] = [
    Case {
        name: "a leg line missing, so that the sums differ",
        text: Line(4, b""),
        answer: Err((Malformed, 5)),
    },
    Case {
        name: "a line feed missing between two leg lines",
        text: Line(4, b"L    2    1    2    30       -600"),
        answer: Err((Malformed, 4)),
    },
    Case {
        name: "half of a leg line missing",
        text: Line(4, b"L    2    1\n"),
        answer: Err((Malformed, 4)),
    },
    Case {
        name: "a leg line that is its letter alone",
        text: Line(4, b"L\n"),
        answer: Err((Malformed, 4)),
    },
];

static TOO_LONG: [Case; 8] = [
    Case {
        name: "a blank line after the last",
        text: Line(6, b"E    4       140           -2100\n\n"),
        answer: Err((Malformed, 7)),
    },
    Case {
        name: "one byte after the last line",
        text: Line(6, b"E    4       140           -2100\n "),
        answer: Err((Malformed, 7)),
    },
    Case {
        name: "the last line twice",
        text: Line(
            6,
            b"E    4       140           -2100\nE    4       140           -2100\n",
        ),
        answer: Err((Malformed, 7)),
    },
    Case {
        name: "a leg line after the last",
        text: Line(
            6,
            b"E    4       140           -2100\nL    4    1    0    20        300\n",
        ),
        answer: Err((Malformed, 7)),
    },
    Case {
        name: "a second sheet",
        text: Line(
            6,
            b"E    4       140           -2100\nC    3    1\nE    0         0               0\n",
        ),
        answer: Err((Malformed, 7)),
    },
    Case {
        name: "a blank line before the first",
        text: Line(1, b"\nC    3    1\n"),
        answer: Err((Malformed, 1)),
    },
    Case {
        name: "a blank line between two leg lines",
        text: Line(4, b"\nL    2    1    2    30       -600\n"),
        answer: Err((Malformed, 4)),
    },
    Case {
        name: "a blank at the end of a line",
        text: Line(4, b"L    2    1    2    30       -600 \n"),
        answer: Err((Malformed, 4)),
    },
];

static OTHER_BYTES: [Case; 8] = [
    Case {
        name: "a carriage return in the first line",
        text: Line(1, b"C    3    1\r\n"),
        answer: Err((Malformed, 1)),
    },
    Case {
        name: "a carriage return in a leg line",
        text: Line(3, b"L    1    1    0    20        300\r\n"),
        answer: Err((Malformed, 3)),
    },
    Case {
        name: "a carriage return in the last line",
        text: Line(6, b"E    4       140           -2100\r\n"),
        answer: Err((Malformed, 6)),
    },
    Case {
        name: "a carriage return in place of a line feed",
        text: Line(3, b"L    1    1    0    20        300\r"),
        answer: Err((Malformed, 3)),
    },
    Case {
        name: "a byte of 255 in a column",
        text: Line(3, b"L  \xff 1    1    0    20        300\n"),
        answer: Err((Malformed, 3)),
    },
    Case {
        name: "a byte of 160 in place of a blank",
        text: Line(3, b"L    1    1    0    20\xa0       300\n"),
        answer: Err((Malformed, 3)),
    },
    Case {
        name: "a byte of 177, which is a digit with its top bit set",
        text: Line(3, b"L    \xb1    1    0    20        300\n"),
        answer: Err((Malformed, 3)),
    },
    Case {
        name: "a byte of 0 in place of a blank",
        text: Line(6, b"E    4       140\x00          -2100\n"),
        answer: Err((Malformed, 6)),
    },
];

pub fn run(rt: &HostRuntime) -> io::Result<()> {
    try_damage(rt, "Text missing", &TOO_SHORT)?;
    try_damage(rt, "Text missing in the middle", &CUT_WITHIN)?;
    try_damage(rt, "Text left over", &TOO_LONG)?;
    try_damage(rt, "Bytes of other texts", &OTHER_BYTES)
}
