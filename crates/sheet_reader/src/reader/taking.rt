// One line more: what the reader wants and the letter that it meets decide together.
ghost use Rattle.std.specs.Prelude.{◌≡◌, ◌≤◌, ◌∷◌, None, MatchOption, Decides};
ghost use Rattle.limits.specs.Numbers.{most_cost};
ghost use Rattle.limits.specs.Refusals.{answer};
ghost use Rattle.sheets.specs.Places.{row_of, largest};
ghost use Rattle.sheets.specs.declared.form.Form.TheVariants.{Chart as ChartForm};
ghost use Rattle.sheets.specs.declared.tally.Tally.{Tally};
ghost use Rattle.sheets.specs.Begun.{tallied, with_leg};
ghost use Rattle.sheets.specs.Form.{form_letter, leg_letter, end_letter};
ghost use Rattle.sheet_texts.specs.Faults.{Limits, next_refusal};
ghost use Rattle.sheet_texts.specs.Lines.{line_leg};
ghost use Rattle.sheet_reader.specs.declared.reader.Reader.TheVariants.{Legs, Ended};
ghost use Rattle.sheet_reader.specs.Reading.{HasEnded, limits_of, TakesLine, TakesHead, TakesEnd};

use super::Reader;
use crate::fault::Bounds;
use crate::line::read_line;
use charts::limited::{check_figures, check_port_count};
use costs::CostKind;
use limits::MOST_PORTS;
use limits::refusal::Refusal;
use sheet_texts::line::{EndLine, LegLine, read_end, read_head};
use sheets::form::{HEAD_LENGTH, end_line_length, leg_line_length};
use sheets::{Form, Places, SheetKind, Tally};
use std::mem;

// Whether a leg line may come next.
fn check_line<K: SheetKind>(tally: &Tally, bounds: Bounds, line: LegLine<K>) -> Result<(), Refusal>
    ensures { result ≡ answer (next_refusal K.CostKind.kind bounds.numbers (tallied tally.now) (line_leg K.CostKind.row line)) tt }
{
    tally.check_number(bounds.numbers, line.number as usize)?;
    check_figures(tally.ports, line.from, line.to, line.hours, line.cost)
}

// Whether two costs are equal, place by place.
// By a function of its own, since a proof knows how long an array is where it comes by value, and not behind a reference.
fn is_same_cost(a: Places, b: Places) -> bool
    ensures { Decides result (row_of a ≡ row_of b) }
{
    a == b
}

// The sums of an end line are those of the lines before it, place by place.
fn has_sums(tally: &Tally, end: EndLine) -> bool
    ensures { Decides result ((end.legs ≡ tally.now.legs) × (end.hours ≡ tally.now.hours) × (row_of end.cost ≡ row_of tally.now.cost)) }
{
    end.legs == tally.legs as u64 && end.hours == tally.hours && is_same_cost(end.cost, tally.cost)
}

// The tally after a first line of these columns.
fn take_head<K: SheetKind>(bounds: Bounds, columns: &[u8]) -> Result<Tally, Refusal>
    ensures { TakesHead K.CostKind.kind (limits_of bounds) (form_letter ChartForm ∷ columns.now) result }
{
    let ports = read_head(columns, K::place_count()).ok_or(Refusal::Malformed)? as usize;
    check_port_count(bounds.ports.min(MOST_PORTS), ports)?;
    Ok(Tally::open(Form::Chart, ports))
}

// Counts a leg line of these columns, and answers its length.
fn take_leg<K: SheetKind>(
    tally: &mut Tally,
    bounds: Bounds,
    columns: &[u8],
) -> Result<usize, Refusal>
    ensures { TakesLine K.CostKind.kind (limits_of bounds) (Legs tally.old) (Legs tally.new) (leg_letter ∷ columns.now) result }
{
    let line: LegLine<K> = read_line(columns).ok_or(Refusal::Malformed)?;
    check_line(tally, bounds, line)?;
    tally.count_leg(line.number as usize, line.hours as u32, line.cost);
    Ok(leg_line_length::<K>())
}

// Whether an end line of these columns has the sums of the lines before it.
fn check_end<K: SheetKind>(tally: &Tally, columns: &[u8]) -> Result<(), Refusal>
    ensures { (m : Limits) → TakesEnd K.CostKind.kind m tally.now (end_letter ∷ columns.now) result }
{
    let end = read_end(columns, K::place_count()).ok_or(Refusal::Malformed)?;
    if has_sums(tally, end) {
        Ok(())
    } else {
        Err(Refusal::Malformed)
    }
}

impl Reader {
    // Wants nothing more after the end line.
    fn end(&mut self)
        ensures { (t : Tally) → self.old ≡ Legs t → self.new ≡ Ended t }
    {
        if let Reader::Legs(tally) = mem::replace(self, Reader::Head) {
            *self = Reader::Ended(tally);
        }
    }

    // The tally of a whole sheet; none where another line is wanted.
    pub fn ended(self) -> Option<Tally>
        ensures { MatchOption result (HasEnded self → ⊥) (λ t. self ≡ Ended t) }
    {
        match self {
            Reader::Head | Reader::Legs(_) => None,
            Reader::Ended(tally) => Some(tally),
        }
    }

    // Takes the line that the text begins with, and answers its length.
    pub fn take_line<K: SheetKind>(&mut self, bounds: Bounds, text: &[u8]) -> Result<usize, Refusal>
        ensures { TakesLine K.CostKind.kind (limits_of bounds) self.old self.new text.now result }
    {
        let [letter, columns @ ..] = text else {
            return Err(Refusal::Malformed);
        };
        match (&mut *self, *letter as char) {
            (Reader::Head, 'C') => {
                *self = Reader::Legs(take_head::<K>(bounds, columns)?);
                Ok(HEAD_LENGTH)
            }
            (Reader::Legs(tally), 'L') => take_leg::<K>(tally, bounds, columns),
            (Reader::Legs(tally), 'E') => {
                check_end::<K>(tally, columns)?;
                self.end();
                Ok(end_line_length::<K>())
            }
            _ => Err(Refusal::Malformed),
        }
    }
}
