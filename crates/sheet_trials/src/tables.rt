// Tables of legs, filled, compared and written as sheets.
use charts::Leg;
use sheets::{Form, NumberedLeg, SheetKind, write_sheet};
use std::alloc::{AllocError, Global};

// What stands in every place before a text is read.
fn known_leg<K: SheetKind>() -> Leg<K> {
    Leg {
        from: 7,
        to: 9,
        hours: 77,
        cost: K::zero(),
    }
}

// A table of so many places, with the known leg in each.
pub fn filled<K: SheetKind>(
    heap: Global,
    length: usize,
) -> Result<Vec<Option<Leg<K>>>, AllocError> {
    Ok(vec![in heap; Some(known_leg()); length]?)
}

// Whether every place is still as it was filled.
pub fn is_filled<K: SheetKind + PartialEq>(table: &[Option<Leg<K>>]) -> bool {
    table.iter().all(|place| *place == Some(known_leg()))
}

// The legs of a table, without its blanks.
pub fn listed<K: SheetKind>(
    heap: Global,
    table: &[Option<Leg<K>>],
) -> Result<Vec<NumberedLeg<K>>, AllocError> {
    table
        .iter()
        .enumerate()
        .filter_map(|(number, place)| place.map(|leg| NumberedLeg { number, leg }))
        .collect(heap)
}

// The length of the chart sheet of so many legs.
// The figures are the trial's own, and not the lengths of the library that it tries.
fn sheet_length<K: SheetKind>(legs: usize) -> usize {
    let places = K::place_count();
    let leg_line = places.saturating_mul(11).saturating_add(23);
    let end_line = places.saturating_mul(16).saturating_add(17);
    leg_line
        .saturating_mul(legs)
        .saturating_add(end_line)
        .saturating_add(12)
}

// The sheet of a table, in a buffer that it has to fill; nothing where it is refused.
pub fn written<K: SheetKind>(
    heap: Global,
    ports: usize,
    table: &[Option<Leg<K>>],
) -> Result<Vec<u8>, AllocError> {
    let legs = listed(heap, table)?;
    let mut out = vec![in heap; 0u8; sheet_length::<K>(legs.len())]?;
    let length = write_sheet(Form::Chart, ports, legs.as_slice(), &mut out).unwrap_or(0);
    out.truncate(length);
    Ok(out)
}
