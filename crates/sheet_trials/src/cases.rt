// A case is a text and the answer that it should get; each is read into a fresh table.
use crate::longest::longest_with;
use crate::tables::{filled, is_filled, written};
use charts::Leg;
use costs::Money;
use limits::refusal::Refusal;
use sheet_reader::{Fault, read_sheet};
use sheets::SheetKind;
use std::alloc::{AllocError, Global};
use std::io;

// The sheet that most cases damage, line by line.
static TRIANGLE: [&[u8]; 6] = [
    b"C    3    1\n",
    b"L    0    0    1    40      -1200\n",
    b"L    1    1    0    20        300\n",
    b"L    2    1    2    30       -600\n",
    b"L    3    2    0    50       -600\n",
    b"E    4       140           -2100\n",
];

#[derive(Clone, Copy)]
pub enum Text {
    // all of it
    Whole(&'static [u8]),
    // the triangle with this in place of the line of a number, counted from 1
    Line(usize, &'static [u8]),
    // the longest sheet with this in place of its last line
    Longest(&'static [u8]),
}

// The ports of the chart, or the refusal and the line at fault, which is 0 where no line is.
pub type Answer = Result<usize, (Refusal, usize)>;

#[derive(Clone, Copy)]
pub struct Case {
    pub name: &'static str,
    pub text: Text,
    pub answer: Answer,
}

fn triangle_with(heap: Global, line: usize, text: &[u8]) -> Result<Vec<u8>, AllocError> {
    let mut sheet = Vec::new(heap);
    for (before, kept) in TRIANGLE.iter().enumerate() {
        let is_replaced = before.wrapping_add(1) == line;
        sheet.extend_from_slice(if is_replaced { text } else { kept })?;
    }
    Ok(sheet)
}

fn bytes_of(heap: Global, text: Text) -> Result<Vec<u8>, AllocError> {
    match text {
        Text::Whole(bytes) => Vec::from_slice(heap, bytes),
        Text::Line(line, bytes) => triangle_with(heap, line, bytes),
        Text::Longest(end) => longest_with(heap, end),
    }
}

fn answer_of(read: Result<usize, Fault>) -> Answer {
    read.map_err(|fault| (fault.refusal, fault.line.unwrap_or(0)))
}

fn tell(rt: &HostRuntime, name: &str, answer: Answer) -> io::Result<()> {
    match answer {
        Ok(ports) => println!(rt; "  {name}: accepted, {ports} ports"),
        Err((refusal, line)) => println!(rt; "  {name}: {refusal} in line {line}"),
    }
}

// A refused text leaves every place as it was; what an accepted one leaves gives the same text when it is written.
fn is_table_right<K: SheetKind + PartialEq>(
    heap: Global,
    answer: Answer,
    text: &[u8],
    table: &[Option<Leg<K>>],
) -> Result<bool, AllocError> {
    match answer {
        Err(_) => Ok(is_filled(table)),
        Ok(ports) => {
            let again = written(heap, ports, table)?;
            Ok(again.as_slice() == text)
        }
    }
}

// Whether a case is answered as it should be, in a table of so many places.
fn is_right<K: SheetKind + PartialEq>(
    rt: &HostRuntime,
    case: Case,
    most_ports: usize,
    places: usize,
) -> io::Result<bool> {
    let text = bytes_of(rt.alloc(), case.text)?;
    let mut table = filled::<K>(rt.alloc(), places)?;
    let answer = answer_of(read_sheet(text.as_slice(), most_ports, &mut table));
    tell(rt, case.name, answer)?;
    Ok(
        answer == case.answer
            && is_table_right(rt.alloc(), answer, text.as_slice(), table.as_slice())?,
    )
}

pub fn try_cases<K: SheetKind + PartialEq>(
    rt: &HostRuntime,
    name: &str,
    cases: &[Case],
    most_ports: usize,
    places: usize,
) -> io::Result<()> {
    println!(rt; "{name}:")?;
    let mut wrong: usize = 0;
    // Counted in a loop, since each case is told as it is tried, and telling may fail.
    for case in cases {
        if !is_right::<K>(rt, *case, most_ports, places)? {
            wrong = wrong.saturating_add(1);
        }
    }
    println!(rt; "  cases answered otherwise: {wrong}")
}

// As the triangle is read: in dollars, with no limit on ports but the sheets' own, and four places.
pub fn try_damage(rt: &HostRuntime, name: &str, cases: &[Case]) -> io::Result<()> {
    try_cases::<Money>(rt, name, cases, 256, 4)
}
