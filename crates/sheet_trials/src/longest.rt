// The chart of the most legs, each at its limits, and its sheet.
use crate::tables::written;
use charts::Leg;
use costs::Money;
use std::alloc::{AllocError, Global};

pub const MOST_DOLLARS: i64 = 999_999_999;

const END_LENGTH: usize = 33;

// 4,096 legs between 256 ports, whose costs take turns.
pub fn longest(heap: Global, even: i64, odd: i64) -> Result<Vec<Option<Leg<Money>>>, AllocError> {
    (0u16..4096)
        .map(|n| {
            let dollars = if n % 2 == 0 { even } else { odd };
            Some(Leg {
                from: n % 256,
                to: n / 16,
                hours: 9_999,
                cost: Money { dollars },
            })
        })
        .collect(heap)
}

// Its sheet with something else in place of the last line.
pub fn longest_with(heap: Global, end: &[u8]) -> Result<Vec<u8>, AllocError> {
    let table = longest(heap, MOST_DOLLARS, -MOST_DOLLARS)?;
    let mut sheet = written(heap, 256, table.as_slice())?;
    sheet.truncate(sheet.len().saturating_sub(END_LENGTH));
    sheet.extend_from_slice(end)?;
    Ok(sheet)
}
