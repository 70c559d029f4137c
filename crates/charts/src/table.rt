// A table of legs: what a place shows, and the edits. They take ports and table apart, and no written chart, since of a
// slice that is lent out of a field a proof knows the length alone.
ghost use Rattle.std.specs.Prelude.{◌≡◌, length, Some, None, slice_index_or, slice_set};
ghost use Rattle.limits.specs.Refusals.{if_refused, answer};
ghost use Rattle.charts.specs.Meaning.{shown_at};
ghost use Rattle.charts.specs.Reading.{entry_shown, figures_of};
ghost use Rattle.charts.specs.Written.{places_read, written, leg_in_use, enter_refusal, withdraw_refusal, reprice_refusal, repriced};

use super::leg::{Entry, Leg};
use super::limited::{check_leg, check_price, limited_entry};
use costs::CostKind;
use limits::MOST_LEGS;
use limits::refusal::Refusal;

// As many places of the table as a chart has entries at most.
pub fn read_part<K>(table: &[Option<Leg<K>>]) -> &[Option<Leg<K>>]
    ensures { result.now ≡ places_read table.now }
{
    &table[0..MOST_LEGS.min(table.len())]
}

// What stands in a place; nothing past the end.
fn place<K: CostKind>(places: &[Option<Leg<K>>], n: usize) -> Option<Leg<K>>
    ensures { result ≡ slice_index_or places.now n None }
{
    places.get(n).copied().flatten()
}

// Writes one place; past the end there is none.
pub fn put<K: CostKind>(table: &mut [Option<Leg<K>>], n: usize, place: Option<Leg<K>>)
    ensures { table.new ≡ slice_set table.old n place }
{
    if n < table.len() {
        table[n] = place;
    }
}

// What the place of a number shows on a chart of so many ports.
pub fn read<K: CostKind>(ports: usize, table: &[Option<Leg<K>>], n: usize) -> Entry<K>
    ensures { entry_shown K.CostKind.row result ≡ shown_at (written K.CostKind.kind K.CostKind.row ports table.now) n }
{
    match place(read_part(table), n) {
        None => Entry::Blank,
        Some(leg) => limited_entry(ports, leg),
    }
}

fn check_enter<K: CostKind>(
    ports: usize,
    places: &[Option<Leg<K>>],
    n: usize,
    leg: Leg<K>,
) -> Result<(), Refusal>
    ensures { result ≡ answer (enter_refusal K.CostKind.kind K.CostKind.row ports places.now n leg) tt }
{
    if n >= places.len() {
        return Err(Refusal::Number);
    }
    match places[n] {
        Some(_) => Err(Refusal::NumberTaken),
        None => check_leg(ports, leg),
    }
}

// Puts a leg under a blank number.
pub fn enter_at<K: CostKind>(
    ports: usize,
    table: &mut [Option<Leg<K>>],
    n: usize,
    leg: Leg<K>,
) -> Result<(), Refusal>
    ensures answer { result ≡ answer (enter_refusal K.CostKind.kind K.CostKind.row ports (places_read table.old) n leg) tt }
    ensures table { table.new ≡ if_refused (enter_refusal K.CostKind.kind K.CostKind.row ports (places_read table.old) n leg) table.old (slice_set table.old n (Some leg)) }
{
    check_enter(ports, read_part(table), n, leg)?;
    put(table, n, Some(leg));
    Ok(())
}

// The leg under a number in use.
fn used_leg<K: CostKind>(places: &[Option<Leg<K>>], n: usize) -> Result<Leg<K>, Refusal>
    ensures { result ≡ leg_in_use (slice_index_or places.now n None) }
{
    place(places, n).ok_or(Refusal::Number)
}

// Blanks a number in use.
pub fn withdraw_at<K: CostKind>(table: &mut [Option<Leg<K>>], n: usize) -> Result<(), Refusal>
    ensures answer { result ≡ answer (withdraw_refusal (places_read table.old) n) tt }
    ensures table { table.new ≡ if_refused (withdraw_refusal (places_read table.old) n) table.old (slice_set table.old n None) }
{
    used_leg(read_part(table), n)?;
    put(table, n, None);
    Ok(())
}

// Replaces the hours and the cost under a number in use.
pub fn reprice_at<K: CostKind>(
    table: &mut [Option<Leg<K>>],
    n: usize,
    hours: u32,
    cost: K,
) -> Result<(), Refusal>
    ensures answer { result ≡ answer (reprice_refusal K.CostKind.kind K.CostKind.row (places_read table.old) n hours cost) tt }
    ensures table { table.new ≡ if_refused (reprice_refusal K.CostKind.kind K.CostKind.row (places_read table.old) n hours cost) table.old (slice_set table.old n (repriced hours cost (slice_index_or table.old n None))) }
{
    let leg = used_leg(read_part(table), n)?;
    check_price(u64::from(hours), cost)?;
    put(table, n, Some(Leg { hours, cost, ..leg }));
    Ok(())
}
