// Reading a chart sheet into a table.
ghost use Rattle.std.specs.Prelude.{◌≡◌, length, replicate, Ok, None};
ghost use Rattle.sheets.specs.Begun.{tallied};
ghost use Rattle.sheet_reader.specs.Reading.{limits_of, Whole};
ghost use Rattle.sheet_reader.specs.Tables.{Reads};

use crate::checking::check_text;
use crate::fault::{Bounds, Fault};
use crate::filling::place_legs;
use charts::Leg;
use costs::CostKind;
use limits::MOST_LEGS;
use limits::refusal::Refusal;
use sheets::form::HEAD_LENGTH;
use sheets::{SheetKind, Tally};

// Makes every place blank.
fn clear_table<K: CostKind>(table: &mut [Option<Leg<K>>])
    ensures { table.new ≡ replicate (length table.old) None }
{
    table.fill(None);
}

// Puts the legs of a text that was checked into the table, and blanks every other place.
fn fill_table<K: SheetKind>(
    text: &[u8],
    tally: &Tally,
    bounds: Bounds,
    table: &mut [Option<Leg<K>>],
)
    requires checked { Whole K.CostKind.kind (limits_of bounds) text.now (tallied tally.now) }
    requires size { bounds.numbers ≡ length table.old }
    ensures { Reads K.CostKind.kind K.CostKind.row bounds.ports text.now table.old (Ok tally.now.ports) table.new }
{
    clear_table(table);
    place_legs(&text[HEAD_LENGTH..], tally.legs, table);
}

// Puts each leg of the sheet under its number, makes every other place blank, and answers the ports of the chart.
// A chart of more than `most_ports` ports is refused as one of too many.
pub fn read_sheet<K: SheetKind>(
    text: &[u8],
    most_ports: usize,
    table: &mut [Option<Leg<K>>],
) -> Result<usize, Fault>
    ensures { Reads K.CostKind.kind K.CostKind.row most_ports text.now table.old result table.new }
{
    if table.len() > MOST_LEGS {
        return Err(Fault {
            refusal: Refusal::Length,
            line: None,
        });
    }
    let bounds = Bounds {
        ports: most_ports,
        numbers: table.len(),
    };
    let tally = check_text::<K>(text, bounds)?;
    fill_table(text, &tally, bounds, table);
    Ok(tally.ports)
}
