// A round as it is kept: each leg by its number, with the ports that it joined.
ghost use Rattle.std.specs.Prelude.{◌≡◌, map};
ghost use Rattle.std.specs.List.{list_all};
ghost use Rattle.rounds.specs.Standing.{still_joins};
ghost use Rattle.rounds.specs.Standing.{still_there as all_still_there};
ghost use Rattle.pricing.specs.Kept.{kept_joined};

use charts::{Chart, Entry};

#[derive(Clone, Copy, PartialEq, Eq, Debug)]
pub struct KeptLeg {
    pub number: u16,
    pub from: u16,
    pub to: u16,
}

fn still_joins<C: Chart>(chart: &C, leg: KeptLeg) -> bool
    ensures { result ≡ still_joins (C.Chart.meaning chart.now) (kept_joined leg) }
{
    match chart.entry(usize::from(leg.number)) {
        Entry::Leg(now) => now.from == leg.from && now.to == leg.to,
        _ => false,
    }
}

fn all_still_join<C: Chart>(chart: &C, legs: &[KeptLeg]) -> bool
    ensures { result ≡ list_all (λ l. still_joins (C.Chart.meaning chart.now) (kept_joined l)) legs.now }
{
    legs.iter().all(|leg| still_joins(chart, *leg))
}

// Whether each number is that of a leg that joins the same ports as before.
pub fn still_there<C: Chart>(chart: &C, legs: &[KeptLeg]) -> bool
    ensures { result ≡ all_still_there (C.Chart.meaning chart.now) (map kept_joined legs.now) }
{
    all_still_join(chart, legs)
}
