// The lines of a sheet, each put into its place in a buffer.
ghost use Rattle.std.specs.Prelude.{◌≡◌, ◌+◌, ◌-◌, ◌*◌, ◌^◌, ◌<◌, ◌≤◌, [], ◌∷◌, length, pos, unsigned_abs};
ghost use Rattle.limits.specs.Numbers.{most_ports, most_legs, most_hours, most_cost};
ghost use Rattle.columns.specs.Columns.{column};
ghost use Rattle.columns.specs.Put.{put};
ghost use Rattle.sheets.specs.Places.{row_of, largest};
ghost use Rattle.sheets.specs.Form.{number_width, place_columns, head_line, leg_line, end_line, head_length, leg_length, end_length};
ghost use Rattle.sheets.specs.Writing.{numbered_of};
ghost use Rattle.sheets.specs.Lines.{Puts};

use crate::form::{
    COST_WIDTH, Form, HOURS_WIDTH, NUMBER_WIDTH, SUMMED_COST_WIDTH, SUMMED_HOURS_WIDTH,
};
use crate::kind::{SheetKind, plain_leg};
use crate::numbered::NumberedLeg;
use crate::places::Places;
use crate::tally::Tally;
use columns::{Numeral, put_number};

const LEG_LETTER: u8 = b'L';

const END_LETTER: u8 = b'E';

const LINE_FEED: u8 = b'\n';

// A buffer, and the place in it where the next byte of a line is put.
#[derive(Drop)]
struct LineWriter<'a> {
    out: &'a mut [u8],
    at: usize,
}

impl LineWriter<'_> {
    fn put_byte(&mut self, byte: u8)
        requires { self.old.at < length self.old.out.now }
        ensures { Puts self.old self.new (byte ∷ []) 1 }
    {
        self.out[self.at] = byte;
        self.at += 1;
    }

    #[tactic(auto, using(columns::proofs::Columns::length_column, columns::proofs::Putting::fits_kept))]
    fn put_number<N: Numeral>(&mut self, width: usize, n: N)
        requires room { self.old.at + width ≤ length self.old.out.now }
        requires fits { (0 < width) × (unsigned_abs (N.number n) < 10 ^ (width - N.sign_width)) }
        ensures { Puts self.old self.new (column width (N.number n)) width }
    {
        self.at = put_number(self.out, self.at, width, n);
    }

    // Puts a leg number, a port or a count.
    fn put_count(&mut self, n: usize)
        requires room { self.old.at + number_width ≤ length self.old.out.now }
        requires fits { n < 10 ^ number_width }
        ensures { Puts self.old self.new (column number_width (pos n)) number_width }
    {
        // A cast, since no From leads from usize to u64.
        self.put_number(NUMBER_WIDTH, n as u64);
    }

    // Puts as many places of a cost as its kind has, each into a column.
    fn put_places<K: SheetKind>(&mut self, width: usize, places: Places)
        requires room { self.old.at + width * K.CostKind.kind.places ≤ length self.old.out.now }
        requires fits { (0 < width) × (largest (row_of places) < 10 ^ (width - 1)) }
        ensures { Puts self.old self.new (place_columns width K.CostKind.kind.places (row_of places)) (width * K.CostKind.kind.places) }
    {
        for number in &places.numbers[..K::place_count()] {
            self.put_number(width, *number);
        }
    }
}

// Puts the first line of a sheet at the front of a buffer.
pub fn put_head<K: SheetKind>(out: &mut [u8], form: Form, ports: usize)
    requires room { head_length ≤ length out.old }
    requires few { ports ≤ most_ports }
    ensures { out.new ≡ put out.old 0 (head_line K.CostKind.kind.places form ports) }
{
    let mut line = LineWriter { out, at: 0 };
    line.put_byte(form.letter());
    line.put_count(ports);
    line.put_count(K::place_count());
    line.put_byte(LINE_FEED);
}

// Puts a leg line.
pub fn put_leg<K: SheetKind>(out: &mut [u8], at: usize, line: NumberedLeg<K>)
    requires room { at + leg_length K.CostKind.kind.places ≤ length out.old }
    requires fits { (line.number < most_legs) × ((line.leg.hours ≤ most_hours) × (largest (K.CostKind.row line.leg.cost) ≤ most_cost)) }
    ensures { out.new ≡ put out.old at (leg_line K.CostKind.kind.places (numbered_of K.CostKind.row line)) }
{
    let leg = plain_leg(line.leg);
    let number = line.number;
    let mut line = LineWriter { out, at };
    line.put_byte(LEG_LETTER);
    line.put_count(number);
    line.put_count(usize::from(leg.from));
    line.put_count(usize::from(leg.to));
    line.put_number(HOURS_WIDTH, u64::from(leg.hours));
    line.put_places::<K>(COST_WIDTH, leg.cost);
    line.put_byte(LINE_FEED);
}

// Puts the end line after the lines of a tally, and answers how long the sheet is with it.
pub fn put_end<K: SheetKind>(out: &mut [u8], tally: &Tally) -> usize
    requires { tally.now.end + end_length K.CostKind.kind.places ≤ length out.old }
    ensures wrote { out.new ≡ put out.old tally.now.end (end_line K.CostKind.kind.places tally.now.legs tally.now.hours (row_of tally.now.cost)) }
    ensures next { result ≡ tally.now.end + end_length K.CostKind.kind.places }
{
    let mut line = LineWriter { out, at: tally.end };
    line.put_byte(END_LETTER);
    line.put_count(tally.legs);
    line.put_number(SUMMED_HOURS_WIDTH, tally.hours);
    line.put_places::<K>(SUMMED_COST_WIDTH, tally.cost);
    line.put_byte(LINE_FEED);
    line.at
}
