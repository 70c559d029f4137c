// Whether a chart shows an entry that breaks a limit.
ghost use Rattle.std.specs.Prelude.{◌≡◌, true, false};
ghost use Rattle.charts.specs.Meaning.{shown_at};
ghost use Rattle.search.specs.Over.{SomeOver};
ghost use Rattle.search.specs.Over.{is_over as shows_over};

use charts::{Chart, Entry};
use costs::CostKind;

fn is_over<C: Chart>(chart: &C, n: usize) -> bool
    ensures { result ≡ shows_over (shown_at (C.Chart.meaning chart.now) n) }
{
    matches!(chart.entry(n), Entry::Over)
}

pub fn has_over<C: Chart>(chart: &C) -> bool
    ensures some { result ≡ true → SomeOver (C.Chart.meaning chart.now) }
    ensures none { result ≡ false → SomeOver (C.Chart.meaning chart.now) → ⊥ }
{
    // `any` over the range takes a fifth more steps for each entry, and every search begins here
    for n in 0..chart.count() {
        if is_over(chart, n) {
            return true;
        }
    }
    false
}
