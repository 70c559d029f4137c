// From a table to its sheet and back.
use crate::tables::{filled, written};
use charts::Leg;
use sheet_reader::read_sheet;
use sheets::SheetKind;
use std::alloc::{AllocError, Global};

// Whether a table comes back from its sheet, and the sheet from the table that came back.
pub fn comes_back<K: SheetKind + PartialEq>(
    heap: Global,
    ports: usize,
    table: &[Option<Leg<K>>],
) -> Result<bool, AllocError> {
    let sheet = written(heap, ports, table)?;
    let mut read = filled(heap, table.len())?;
    let Ok(found) = read_sheet(sheet.as_slice(), ports, &mut read) else {
        return Ok(false);
    };
    let again = written(heap, found, read.as_slice())?;
    Ok(found == ports && table == read.as_slice() && again.as_slice() == sheet.as_slice())
}
