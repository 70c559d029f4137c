// How a chart is told, the same in every program of the worked example.
ghost use Rattle.std.specs.Prelude.{Some};
ghost use Rattle.triangle_facts.specs.Listing.{listing_text};

use charts::Chart;
use costs::Money;
use std::fmt;

// A chart as it is told: how many ports and entries it has, and what stands under each number.
#[derive(Clone, Copy)]
pub struct Listing<'a, C>(pub &'a C);

impl<'a, C: Chart<Cost = Money>> fmt::Display for Listing<'a, C> {
    ghost output = { λ l. Some (listing_text (C.Chart.meaning l.0.now)) };

    fn fmt<W: fmt::Write>(&self, f: &mut fmt::Formatter<W>) -> fmt::Result {
        let chart = self.0;
        writeln!(f, "  {} ports, {} entries", chart.ports(), chart.count())?;
        for n in 0..chart.count() {
            writeln!(f, "  {n}: {}", chart.entry(n))?;
        }
        Ok(())
    }
}
