// Numbers that do not stand in their columns as they should.
use crate::cases::Text::Line;
use crate::cases::{Case, try_damage};
use limits::refusal::Refusal::{Cost, Hours, Malformed, Number, Port};
use std::io;

static WHOLE_NUMBERS: [Case; 8] = [
    Case {
        name: "a column too short",
        text: Line(3, b"L   1    1    0    20        300\n"),
        answer: Err((Malformed, 3)),
    },
    Case {
        name: "a column too long",
        text: Line(3, b"L     1    1    0    20        300\n"),
        answer: Err((Malformed, 3)),
    },
    Case {
        name: "a leg number at the left of its column",
        text: Line(3, b"L1        1    0    20        300\n"),
        answer: Err((Malformed, 3)),
    },
    Case {
        name: "a leg number in the middle of its column",
        text: Line(3, b"L  1      1    0    20        300\n"),
        answer: Err((Malformed, 3)),
    },
    Case {
        name: "a leading zero in a leg number",
        text: Line(3, b"L   01    1    0    20        300\n"),
        answer: Err((Malformed, 3)),
    },
    Case {
        name: "a leading zero in a port",
        text: Line(3, b"L    1    1   00    20        300\n"),
        answer: Err((Malformed, 3)),
    },
    Case {
        name: "a leading zero in the hours",
        text: Line(3, b"L    1    1    0   020        300\n"),
        answer: Err((Malformed, 3)),
    },
    Case {
        name: "a column of blanks",
        text: Line(3, b"L    1         0    20        300\n"),
        answer: Err((Malformed, 3)),
    },
];

static SIGNS: [Case; 8] = [
    Case {
        name: "a plus in a leg number",
        text: Line(3, b"L   +1    1    0    20        300\n"),
        answer: Err((Malformed, 3)),
    },
    Case {
        name: "a plus in the hours",
        text: Line(3, b"L    1    1    0   +20        300\n"),
        answer: Err((Malformed, 3)),
    },
    Case {
        name: "a minus in a leg number",
        text: Line(3, b"L   -1    1    0    20        300\n"),
        answer: Err((Malformed, 3)),
    },
    Case {
        name: "a minus in a port left",
        text: Line(3, b"L    1   -1    0    20        300\n"),
        answer: Err((Malformed, 3)),
    },
    Case {
        name: "a minus in a port reached",
        text: Line(3, b"L    1    1   -0    20        300\n"),
        answer: Err((Malformed, 3)),
    },
    Case {
        name: "a minus in the hours",
        text: Line(3, b"L    1    1    0   -20        300\n"),
        answer: Err((Malformed, 3)),
    },
    Case {
        name: "a minus in the ports of a chart",
        text: Line(1, b"C   -3    1\n"),
        answer: Err((Malformed, 1)),
    },
    Case {
        name: "a minus in the summed hours",
        text: Line(6, b"E    4      -140           -2100\n"),
        answer: Err((Malformed, 6)),
    },
];

static COSTS: [Case; 8] = [
    Case {
        name: "a minus apart from its digits",
        text: Line(2, b"L    0    0    1    40     - 1200\n"),
        answer: Err((Malformed, 2)),
    },
    Case {
        name: "a minus zero",
        text: Line(2, b"L    0    0    1    40         -0\n"),
        answer: Err((Malformed, 2)),
    },
    Case {
        name: "a minus alone",
        text: Line(2, b"L    0    0    1    40          -\n"),
        answer: Err((Malformed, 2)),
    },
    Case {
        name: "two minuses",
        text: Line(2, b"L    0    0    1    40     --1200\n"),
        answer: Err((Malformed, 2)),
    },
    Case {
        name: "a minus after its digits",
        text: Line(2, b"L    0    0    1    40      1200-\n"),
        answer: Err((Malformed, 2)),
    },
    Case {
        name: "a plus in a cost",
        text: Line(3, b"L    1    1    0    20       +300\n"),
        answer: Err((Malformed, 3)),
    },
    Case {
        name: "a leading zero after a minus",
        text: Line(2, b"L    0    0    1    40     -01200\n"),
        answer: Err((Malformed, 2)),
    },
    Case {
        name: "a cost with a point",
        text: Line(3, b"L    1    1    0    20        3.0\n"),
        answer: Err((Malformed, 3)),
    },
];

static FULL: [Case; 7] = [
    Case {
        name: "a leg number",
        text: Line(3, b"L99999    1    0    20        300\n"),
        answer: Err((Number, 3)),
    },
    Case {
        name: "a port left of 65536",
        text: Line(3, b"L    165536    0    20        300\n"),
        answer: Err((Port, 3)),
    },
    Case {
        name: "a port reached of 65537",
        text: Line(3, b"L    1    165537    20        300\n"),
        answer: Err((Port, 3)),
    },
    Case {
        name: "hours",
        text: Line(3, b"L    1    1    0999999        300\n"),
        answer: Err((Hours, 3)),
    },
    Case {
        name: "a cost",
        text: Line(3, b"L    1    1    0    2099999999999\n"),
        answer: Err((Cost, 3)),
    },
    Case {
        name: "a cost with a minus",
        text: Line(3, b"L    1    1    0    20-9999999999\n"),
        answer: Err((Cost, 3)),
    },
    Case {
        name: "a summed cost",
        text: Line(6, b"E    4       140-999999999999999\n"),
        answer: Err((Malformed, 6)),
    },
];

pub fn run(rt: &HostRuntime) -> io::Result<()> {
    try_damage(rt, "Numbers without a minus", &WHOLE_NUMBERS)?;
    try_damage(rt, "Signs", &SIGNS)?;
    try_damage(rt, "Costs", &COSTS)?;
    try_damage(rt, "Numbers that fill their columns", &FULL)
}
