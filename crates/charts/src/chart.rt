// What every chart shows and answers.
ghost use Rattle.std.specs.Prelude.{◌≡◌, length};
ghost use Rattle.charts.specs.Meaning.{Meaning, Within, shown_at};
ghost use Rattle.charts.specs.Reading.{entry_shown};

use super::leg::Entry;
use costs::CostKind;

// A chart of one cost kind. It answers from its meaning, for every number asked, refuses nothing and changes nothing.
pub trait Chart {
    type Cost: CostKind;

    ghost meaning: { Self → Meaning };

    // How many ports there are; and every chart keeps the limits.
    fn ports(&self) -> usize
        ensures value { result ≡ (meaning self.now).ports }
        ensures within { Within Self.Cost.CostKind.kind (meaning self.now) };

    // How many entries there are.
    fn count(&self) -> usize
        ensures { result ≡ length (meaning self.now).entries };

    // What stands under a number: blank at and past the count.
    fn entry(&self, n: usize) -> Entry<Self::Cost>
        ensures { entry_shown Self.Cost.CostKind.row result ≡ shown_at (meaning self.now) n };
}

// A reference to a chart shows the same.
impl<'a, C: Chart> Chart for &'a C {
    type Cost = C::Cost;

    ghost meaning = { λ s. C.Chart.meaning s.now };

    fn ports(&self) -> usize {
        (**self).ports()
    }

    fn count(&self) -> usize {
        (**self).count()
    }

    fn entry(&self, n: usize) -> Entry<C::Cost> {
        (**self).entry(n)
    }
}
