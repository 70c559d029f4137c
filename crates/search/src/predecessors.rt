// The legs by which ports were reached, layer by layer.
ghost use Rattle.std.specs.Prelude.{◌≡◌, ◌+◌, ◌*◌, ◌<◌, length, MatchOption};
ghost use Rattle.limits.specs.Numbers.{most_legs};
ghost use Rattle.search.specs.Predecessors.{pred_at, Led};

use charts::Chart;

// Rows of numbers, `width` places apart, one for each of so many layers of a chart: at the place of a port 0, or the
// number and 1 of the leg by which it was reached. The lent area is of plain numbers that are zero again, so they are no
// options: `predecessor` writes one, and `leg_of` reads it.
#[derive(Drop)]
pub struct Predecessors<'a, C: Chart> {
    pub chart: &'a C,
    pub numbers: &'a [u32],
    pub width: usize,
    pub layers: usize,
    ghost led: { Led C.Cost.CostKind.kind (C.Chart.meaning chart.now) width numbers.now layers },
}

// A leg as a predecessor: its number and 1, since 0 stands for none.
pub fn predecessor(n: usize) -> u32
    requires { n < most_legs }
    ensures { result ≡ n + 1 }
{
    n as u32 + 1
}

// The number of the leg that a predecessor is.
pub fn leg_of(predecessor: usize) -> Option<usize>
    ensures { MatchOption result (predecessor ≡ 0) (λ leg. predecessor ≡ leg + 1) }
{
    match predecessor {
        0 => None,
        n => Some(n - 1),
    }
}

// What row i of a table whose rows stand so many places apart has at a port.
pub fn number_at(table: &[u32], width: usize, i: usize, port: usize) -> usize
    requires { i * width + port < length table.now }
    ensures { result ≡ pred_at width table.now i port }
{
    table[i * width + port] as usize
}

impl<'a, C: Chart> Predecessors<'a, C> {
    // The number of the leg by which a port was reached in the layer after `layer`.
    pub fn leg(&self, layer: usize, port: usize) -> Option<usize>
        requires layer { layer < self.now.layers }
        requires port { port < (C.Chart.meaning self.now.chart.now).ports }
        ensures { let n = pred_at self.now.width self.now.numbers.now layer port in MatchOption result (n ≡ 0) (λ leg. n ≡ leg + 1) }
    {
        leg_of(number_at(self.numbers, self.width, layer, port))
    }
}
