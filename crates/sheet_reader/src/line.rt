// A leg line whose cost is of the kind of the sheet.
ghost use Rattle.std.specs.Prelude.{◌≡◌, MatchOption};
ghost use Rattle.limits.specs.Numbers.{most_ports};
ghost use Rattle.charts.specs.Meaning.{Allowed};
ghost use Rattle.charts.specs.Reading.{figures_of};
ghost use Rattle.sheets.specs.Form.{Numbered};
ghost use Rattle.sheet_texts.specs.Columns.{LegColumns};
ghost use Rattle.sheet_texts.specs.Lines.{line_leg};

use charts::Leg;
use costs::CostKind;
use sheet_texts::line::{LegLine, read_leg};
use sheets::SheetKind;

// The numbers of a leg line.
pub fn read_line<K: SheetKind>(columns: &[u8]) -> Option<LegLine<K>>
    ensures { MatchOption result ((l : Numbered) → LegColumns K.CostKind.kind.places columns.now l → ⊥) (λ l. LegColumns K.CostKind.kind.places columns.now (line_leg K.CostKind.row l)) }
{
    let LegLine {
        number,
        from,
        to,
        hours,
        cost,
    } = read_leg(columns, K::place_count())?;
    // Each number by itself, since the cost has another type.
    Some(LegLine {
        number,
        from,
        to,
        hours,
        cost: K::made_of(cost),
    })
}

// The leg of a line within the limits.
pub fn leg_of<K: SheetKind>(line: LegLine<K>) -> Leg<K>
    requires { Allowed K.CostKind.kind most_ports (line_leg K.CostKind.row line).leg }
    ensures { figures_of K.CostKind.row result ≡ (line_leg K.CostKind.row line).leg }
{
    Leg {
        from: line.from as u16,
        to: line.to as u16,
        hours: line.hours as u32,
        cost: line.cost,
    }
}
