// A whole sheet at once, from a list of legs.
ghost use Rattle.sheets.specs.Listing.{listed, PutsSheet};

use crate::form::Form;
use crate::kind::SheetKind;
pub use crate::numbered::NumberedLeg;
use crate::sheet::BegunSheet;
use limits::refusal::Refusal;

// Puts the sheet of these legs at the front of the buffer and answers its length; where a line is refused, the sheet is struck.
pub fn write_sheet<K: SheetKind>(
    form: Form,
    ports: usize,
    legs: &[NumberedLeg<K>],
    out: &mut [u8],
) -> Result<usize, Refusal>
    ensures { PutsSheet K.CostKind.kind (listed K.CostKind.row form ports legs.now) out.old result out.new }
{
    let mut sheet = BegunSheet::begin(form, ports, out)?;
    for leg in legs {
        if let Err(refusal) = sheet.leg(out, *leg) {
            sheet.strike(out);
            return Err(refusal);
        }
    }
    match sheet.close(out) {
        Ok(closed) => Ok(closed.length()),
        Err(begun) => {
            begun.strike(out);
            Err(Refusal::Length)
        }
    }
}
