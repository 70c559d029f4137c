// Numbers in columns: the shortest decimal at the right, and blanks before it.
#![tactic(auto)]

ghost use Rattle.std.specs.Prelude.{◌≡◌, ℕ, ◌+◌, ◌-◌, ◌^◌, ◌<◌, ◌≤◌, ◌++◌, length, ℤ, MatchOption, ◌≢◌, slice_index, unsigned_abs};
ghost use Rattle.columns.specs.Numerals.{zero_byte, sign, numeral, signed_numeral};
ghost use Rattle.columns.specs.Columns.{widest, padded, column, Shows, Reads, NumeralAt, past_blanks};
ghost use Rattle.columns.specs.Put.{put};
ghost use Rattle.columns.specs.Theorems.{OneNumber, ExactWidth, PutIsShown};

pub mod numeral;

pub use numeral::Numeral;

const BLANK: u8 = b' ';

const MINUS: u8 = b'-';

const ZERO: u8 = b'0';

// A column is read at most this wide, so that its number fits 64 bits with a sign.
pub const WIDEST: usize = 18;

// Puts blanks, and at their end a minus where the number is below 0.
#[tactic(auto, using(crate::proofs::Putting::put_minus, crate::proofs::Putting::put_no_minus))]
fn put_sign(before: &mut [u8], negative: bool)
    requires { length (sign negative) ≤ length before.old }
    ensures { before.new ≡ padded (length before.old) (sign negative) }
{
    before.fill(BLANK);
    if negative {
        before[before.len() - 1] = MINUS;
    }
}

// Puts the digits of a size at the right of a column, from the last to the first, and the sign before them.
#[tactic(auto, using(crate::proofs::Putting::last_digit))]
fn put_numeral(column: &mut [u8], negative: bool, size: u64)
    requires { length (sign negative ++ numeral size) ≤ length column.old }
    ensures { column.new ≡ padded (length column.old) (sign negative ++ numeral size) }
{
    let last = column.len() - 1;
    column[last] = ZERO + (size % 10) as u8;
    if size > 9 {
        put_numeral(&mut column[..last], negative, size / 10);
    } else {
        put_sign(&mut column[..last], negative);
    }
}

// Puts a number into the column of `width` bytes at a place of `out`, and answers the next place.
#[tactic(auto, using(crate::proofs::Putting::fits_kept, crate::proofs::Putting::by_sign, crate::proofs::Putting::put_place))]
pub fn put_number<N: Numeral>(out: &mut [u8], at: usize, width: usize, n: N) -> usize
    requires room { at + width ≤ length out.old }
    requires fits { (0 < width) × (unsigned_abs (N.number n) < 10 ^ (width - N.sign_width)) }
    ensures wrote { out.new ≡ put out.old at (column width (N.number n)) }
    ensures next { result ≡ at + width }
{
    let next = at + width;
    let (negative, size) = n.sign_and_size();
    put_numeral(&mut out[at..next], negative, size);
    next
}

// The bytes of a column past its leading blanks.
#[tactic(auto, using(crate::proofs::Columns::past_one, crate::proofs::Columns::past_none))]
fn past_blanks(column: &[u8]) -> &[u8]
    ensures { result.now ≡ past_blanks column.now }
{
    let mut rest = column;
    while let [BLANK, after @ ..] = rest {
        rest = after;
    }
    rest
}

// The number above 0 that these digits are the shortest decimal of. By its own loop: `parse`, which takes other forms too and
// wants a text, takes several times as long.
fn read_size(digits: &[u8]) -> Option<u64>
    requires narrow { length digits.now ≤ widest }
    requires leads { slice_index digits.now 0 ≢ zero_byte }
    ensures { MatchOption result ((n : ℕ) → 0 < n → digits.now ≢ numeral n) (λ n. (0 < n) × (n < 10 ^ widest) × (digits.now ≡ numeral n)) }
{
    let mut n = 0;
    for digit in digits {
        n = n * 10 + u64::from(char::from(*digit).to_digit(10)?);
    }
    (n > 0).then_some(n)
}

// The whole number that these bytes are the shortest decimal of.
fn read_numeral(bytes: &[u8]) -> Option<i64>
    requires { length bytes.now ≤ widest }
    ensures { MatchOption result ((z : ℤ) → bytes.now ≢ signed_numeral z) (λ z. bytes.now ≡ signed_numeral z) }
{
    match bytes {
        [ZERO] => Some(0),
        [ZERO, ..] | [MINUS, ZERO, ..] => None,
        [MINUS, digits @ ..] => Some(-(read_size(digits)? as i64)),
        digits => Some(read_size(digits)? as i64),
    }
}

// The bytes of the column at a place, past its blanks, and the next place; nothing where the text has no such column.
#[tactic(auto, using(crate::proofs::Columns::shows_within, crate::proofs::Columns::numeral_found))]
fn numeral_at(text: &[u8], at: usize, width: usize) -> Option<(&[u8], usize)>
    ensures { MatchOption result ((z : ℤ) → Shows text.now at width z → ⊥) (λ x. NumeralAt text.now at width x.0.now × (x.1 ≡ at + width)) }
{
    // By `checked_add` and `get` the proof does not close: it knows that a place is a `usize` only from `text.len()`.
    if width > WIDEST || at > text.len() || width > text.len() - at {
        return None;
    }
    let next = at + width;
    Some((past_blanks(&text[at..next]), next))
}

// The number in the column of `width` bytes at a place of a text, and the next place. It is inlined so that each column is
// read at a width that is known; else a sheet takes a fifth more steps.
#[inline(always)]
#[tactic(auto, using(crate::proofs::Columns::shows_same))]
pub fn read_number<N: Numeral>(text: &[u8], at: usize, width: usize) -> Option<(N, usize)>
    ensures { Reads N.number text.now at width result }
{
    let (bytes, next) = numeral_at(text, at, width)?;
    let n = N::from_whole(read_numeral(bytes)?)?;
    Some((n, next))
}

// What holds of every column.
#[tactic(auto, using(crate::proofs::Columns::column_same, crate::proofs::Columns::length_column, crate::proofs::Columns::put_shows))]
pub fn columns_are_exact()
    ensures one { OneNumber }
    ensures width { ExactWidth }
    ensures shown { PutIsShown }
{}

#[cfg(test)]
mod tests;
