// Why a text is refused and at which line, and the limits that a caller sets.
ghost use Rattle.std.specs.Prelude.{◌≡◌, ◌≤◌, Some};
ghost use Rattle.limits.specs.Numbers.{most_legs};

use limits::refusal::Refusal;
use std::fmt;

#[derive(Clone, Copy, PartialEq, Eq, Debug)]
pub struct Fault {
    pub refusal: Refusal,
    // counted from 1; none where no line is at fault
    pub line: Option<usize>,
}

impl Fault {
    pub(crate) fn at(line: usize, refusal: Refusal) -> Fault
        ensures { result ≡ record { refusal = refusal; line = Some line } }
    {
        Fault {
            refusal,
            line: Some(line),
        }
    }
}

impl fmt::Display for Fault {
    ghost use Rattle.sheet_reader.specs.Telling.{told};

    ghost output = { λ f. Some (told f) };

    fn fmt<W: fmt::Write>(&self, f: &mut fmt::Formatter<W>) -> fmt::Result {
        write!(f, "{}", self.refusal)?;
        match self.line {
            Some(line) => write!(f, " in line {line}"),
            None => Ok(()),
        }
    }
}

// At most so many ports, and leg numbers below so many.
#[derive(Clone, Copy)]
pub struct Bounds {
    pub ports: usize,
    pub numbers: usize,
    ghost few: { numbers ≤ most_legs },
}
