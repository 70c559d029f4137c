// The lines of a sheet past their letters, read column after column. No limit is tested yet.
ghost use Rattle.std.specs.Prelude.{◌≡◌, ℕ, ◌<◌, ◌≤◌, Decides, MatchOption, slice_index};
ghost use Rattle.limits.specs.Numbers.{most_places};
ghost use Rattle.rows.specs.Rows.{Row, Narrow};
ghost use Rattle.sheets.specs.Places.{row_of};
ghost use Rattle.sheets.specs.Form.{line_feed, Numbered};
ghost use Rattle.sheet_texts.specs.Columns.{ShowsPlaces, HeadColumns, LegColumns, EndColumns};
ghost use Rattle.sheet_texts.specs.Lines.{line_leg, ReadPlaces};

use columns::read_number;
use sheets::Places;
use sheets::form::{COST_WIDTH, HOURS_WIDTH, NUMBER_WIDTH, SUMMED_COST_WIDTH, SUMMED_HOURS_WIDTH};

const LINE_FEED: u8 = b'\n';

#[derive(Clone, Copy)]
pub struct LegLine<C> {
    pub number: u64,
    pub from: u64,
    pub to: u64,
    pub hours: u64,
    // the places that are read, or the cost of these places
    pub cost: C,
}

#[derive(Clone, Copy)]
pub struct EndLine {
    // how many leg lines there are
    pub legs: u64,
    pub hours: u64,
    pub cost: Places,
}

fn ends_line(columns: &[u8], at: usize) -> bool
    ensures { Decides result (slice_index columns.now at ≡ line_feed) }
{
    columns.get(at) == Some(&LINE_FEED)
}

// So many places of a cost, each in a column, and the next place.
fn read_places(columns: &[u8], at: usize, width: usize, count: usize) -> Option<(Places, usize)>
    requires { count ≤ most_places }
    ensures { MatchOption result ((c : Row) → ShowsPlaces columns.now at width count c → ⊥) (λ x. ReadPlaces columns.now at width count x.0 x.1) }
{
    let mut places = Places::ZERO;
    let mut next = at;
    // By number, since a proof knows no element that is written through the items of a part of an array.
    for i in 0..count {
        let (z, after) = read_number(columns, next, width)?;
        places.numbers[i] = z;
        next = after;
    }
    Some((places, next))
}

// The ports of a first line whose costs have so many places.
pub fn read_head(columns: &[u8], places: usize) -> Option<u64>
    ensures { MatchOption result ((p : ℕ) → HeadColumns places columns.now p → ⊥) (λ p. HeadColumns places columns.now p) }
{
    let (ports, at) = read_number(columns, 0, NUMBER_WIDTH)?;
    let (shown, at) = read_number::<u64>(columns, at, NUMBER_WIDTH)?;
    if shown != places as u64 {
        return None;
    }
    ends_line(columns, at).then_some(ports)
}

// The numbers of a leg line whose cost has so many places.
pub fn read_leg(columns: &[u8], places: usize) -> Option<LegLine<Places>>
    requires { places ≤ most_places }
    ensures { MatchOption result ((l : Numbered) → LegColumns places columns.now l → ⊥) (λ l. LegColumns places columns.now (line_leg row_of l) × Narrow places (row_of l.cost)) }
{
    let (number, at) = read_number(columns, 0, NUMBER_WIDTH)?;
    let (from, at) = read_number(columns, at, NUMBER_WIDTH)?;
    let (to, at) = read_number(columns, at, NUMBER_WIDTH)?;
    let (hours, at) = read_number(columns, at, HOURS_WIDTH)?;
    let (cost, at) = read_places(columns, at, COST_WIDTH, places)?;
    ends_line(columns, at).then_some(LegLine {
        number,
        from,
        to,
        hours,
        cost,
    })
}

// The numbers of an end line whose summed cost has so many places.
pub fn read_end(columns: &[u8], places: usize) -> Option<EndLine>
    requires { places ≤ most_places }
    ensures { MatchOption result ((legs hours : ℕ) (c : Row) → EndColumns places columns.now legs hours c → ⊥) (λ e. EndColumns places columns.now e.legs e.hours (row_of e.cost) × Narrow places (row_of e.cost)) }
{
    let (legs, at) = read_number(columns, 0, NUMBER_WIDTH)?;
    let (hours, at) = read_number(columns, at, SUMMED_HOURS_WIDTH)?;
    let (cost, at) = read_places(columns, at, SUMMED_COST_WIDTH, places)?;
    ends_line(columns, at).then_some(EndLine { legs, hours, cost })
}
