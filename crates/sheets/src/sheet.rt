// Sheets that are being written: plain numbers, since the bytes come with each call.
mod writing;

use crate::tally::Tally;
use std::marker::PhantomData;

// A sheet that takes leg lines of one kind. It is not Drop: it has to be closed or struck.
pub struct BegunSheet<K> {
    tally: Tally,
    kind: PhantomData<K>,
}

// A sheet with its end line.
#[derive(Drop)]
pub struct ClosedSheet {
    length: usize,
}
