// The places of a cost as plain numbers.
ghost use Rattle.std.specs.Prelude.{◌≡◌, ◌+◌, ◌^◌, ◌<◌, ◌≤◌};
ghost use Rattle.rows.specs.Rows.{place, sum};
ghost use Rattle.sheets.specs.Places.{row_of, largest};

use limits::MOST_PLACES;

// A cost of fewer places leaves the others 0.
#[derive(Clone, Copy, PartialEq, Eq, Debug)]
pub struct Places {
    pub numbers: [i64; MOST_PLACES],
}

impl Places {
    pub const ZERO: Places = Places {
        numbers: [0; MOST_PLACES],
    };

    // The place of a number, counted from 0; past the last there are zeros.
    pub fn place(self, i: usize) -> i64
        ensures { result ≡ place (row_of self) i }
    {
        if i < MOST_PLACES { self.numbers[i] } else { 0 }
    }

    // Each place with the same place of another cost.
    pub(crate) fn plus(mut self, other: Places) -> Places
        requires { largest (row_of self) + largest (row_of other) < 2 ^ 63 }
        ensures sum { row_of result ≡ sum (row_of self) (row_of other) }
        ensures small { largest (row_of result) ≤ largest (row_of self) + largest (row_of other) }
    {
        for (i, number) in self.numbers.iter_mut().enumerate() {
            *number += other.place(i);
        }
        self
    }
}
