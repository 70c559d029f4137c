// The forms of a sheet, and how long its columns and lines are.
ghost use Rattle.std.specs.Prelude.{◌≡◌, ◌<◌, ◌≤◌};
ghost use Rattle.limits.specs.Numbers.{most_legs, most_places};
ghost use Rattle.sheets.specs.Form.{number_width, hours_width, cost_width, summed_hours_width, summed_cost_width};
ghost use Rattle.sheets.specs.Form.{form_letter, head_length, leg_length, end_length};
ghost use Rattle.sheets.specs.Proper.{least_after};

use costs::CostKind;

#[derive(Clone, Copy, PartialEq, Eq, Debug)]
pub enum Form {
    // the legs of a chart, whose numbers rise
    Chart,
    // the legs of a round, in the order in which they are sailed
    Round,
}

// The columns of a leg number, a port, and a count of ports, places or leg lines.
pub const NUMBER_WIDTH: usize = 5;

pub const HOURS_WIDTH: usize = 6;

// The column of each place of a leg's cost.
pub const COST_WIDTH: usize = 11;

pub const SUMMED_HOURS_WIDTH: usize = 10;

// The column of each place of the summed cost.
pub const SUMMED_COST_WIDTH: usize = 16;

// The letter and the line feed.
const LINE_BYTES: usize = 2;

pub const HEAD_LENGTH: usize = LINE_BYTES + 2 * NUMBER_WIDTH;

impl Form {
    // The letter of the first line; a conversion into a byte would not say that it is the letter.
    pub fn letter(self) -> u8
        ensures { result ≡ form_letter self }
    {
        match self {
            Form::Chart => b'C',
            Form::Round => b'R',
        }
    }

    // The lowest number that a leg may have after one of this number.
    pub fn least_after(self, number: usize) -> usize
        requires { number < most_legs }
        ensures { result ≡ least_after self number }
    {
        match self {
            Form::Chart => number + 1,
            Form::Round => 0,
        }
    }
}

// The length of a leg line whose cost has so many places. Here, below and in `Tally::count` the places are a number and no
// kind, so that they can be asked of numbers that no kind at hand has.
pub fn leg_length(places: usize) -> usize
    requires { places ≤ most_places }
    ensures { result ≡ leg_length places }
{
    LINE_BYTES + 3 * NUMBER_WIDTH + HOURS_WIDTH + COST_WIDTH * places
}

// The length of an end line whose summed cost has so many places.
pub fn end_length(places: usize) -> usize
    requires { places ≤ most_places }
    ensures { result ≡ end_length places }
{
    LINE_BYTES + NUMBER_WIDTH + SUMMED_HOURS_WIDTH + SUMMED_COST_WIDTH * places
}

// The length of a leg line of a kind.
pub fn leg_line_length<K: CostKind>() -> usize
    ensures { result ≡ leg_length K.CostKind.kind.places }
{
    leg_length(K::place_count())
}

// The length of an end line of a kind.
pub fn end_line_length<K: CostKind>() -> usize
    ensures { result ≡ end_length K.CostKind.kind.places }
{
    end_length(K::place_count())
}

// Each width of the code is the width of the same name in the definitions.
pub fn widths_agree()
    ensures number { NUMBER_WIDTH ≡ number_width }
    ensures hours { HOURS_WIDTH ≡ hours_width }
    ensures cost { COST_WIDTH ≡ cost_width }
    ensures summed_hours { SUMMED_HOURS_WIDTH ≡ summed_hours_width }
    ensures summed_cost { SUMMED_COST_WIDTH ≡ summed_cost_width }
    ensures head { HEAD_LENGTH ≡ head_length }
{}
