// The legs of a text that was checked, put into a table.
ghost use Rattle.std.specs.Prelude.{◌≡◌, ℕ, List, length, drop, Some, MatchOption, slice_set};
ghost use Rattle.sheets.specs.Form.{Numbered};
ghost use Rattle.sheet_texts.specs.Columns.{LegColumns};
ghost use Rattle.sheet_texts.specs.Lines.{line_leg};
ghost use Rattle.sheet_reader.specs.Tables.{table_figures, placed, LegNext, LegsNext};

use crate::line::{leg_of, read_line};
use charts::{Leg, put};
use costs::CostKind;
use sheet_texts::line::LegLine;
use sheets::SheetKind;
use sheets::form::leg_line_length;

// The numbers of the leg line that a text begins with.
fn first_leg<K: SheetKind>(text: &[u8]) -> Option<LegLine<K>>
    ensures { MatchOption result ((l : Numbered) → LegColumns K.CostKind.kind.places (drop 1 text.now) l → ⊥) (λ l. LegColumns K.CostKind.kind.places (drop 1 text.now) (line_leg K.CostKind.row l)) }
{
    match text {
        [_, columns @ ..] => read_line(columns),
        [] => None,
    }
}

// Puts the leg of the line that the text begins with under its number, and answers what follows the line.
fn place_leg<'a, K: SheetKind>(text: &'a [u8], table: &mut [Option<Leg<K>>]) -> &'a [u8]
    requires { (l : Numbered) × (more : List ℕ) × LegNext K.CostKind.kind (length table.old) text.now l more }
    ensures rest { (l : Numbered) (more : List ℕ) → LegNext K.CostKind.kind (length table.old) text.now l more → result.now ≡ more }
    ensures table { (l : Numbered) (more : List ℕ) → LegNext K.CostKind.kind (length table.old) text.now l more
        → table_figures K.CostKind.row table.new ≡ slice_set (table_figures K.CostKind.row table.old) l.number (Some l.leg) }
{
    let line = first_leg::<K>(text).unwrap();
    put(table, line.number as usize, Some(leg_of(line)));
    &text[leg_line_length::<K>()..]
}

// Puts the legs of so many lines, which the text begins with, under their numbers.
pub fn place_legs<K: SheetKind>(text: &[u8], legs: usize, table: &mut [Option<Leg<K>>])
    requires { (ls : List Numbered) × (more : List ℕ) × LegsNext K.CostKind.kind (length table.old) legs text.now ls more }
    ensures { (ls : List Numbered) (more : List ℕ) → LegsNext K.CostKind.kind (length table.old) legs text.now ls more
        → table_figures K.CostKind.row table.new ≡ placed ls (table_figures K.CostKind.row table.old) }
{
    let mut rest = text;
    // Line after line and not by chunks, since the rest of the text is what the contract of a line speaks of.
    for _line in 0..legs {
        rest = place_leg(rest, table);
    }
}
