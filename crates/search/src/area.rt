// The lent work area, made zero again.
ghost use Rattle.std.specs.Prelude.{◌≡◌, ◌≤◌, ◌++◌, length, drop, replicate};
ghost use Rattle.limits.specs.Numbers.{most_ports};
ghost use Rattle.search.specs.Area.{cost_places, number_places, Zeroed};

use crate::search::zero_costs;
use costs::CostKind;

// Zeros as far as finding the least round of so many ports may write.
pub fn clear_area<K: CostKind>(ports: usize, costs: &mut [K], numbers: &mut [u32])
    requires ports { ports ≤ most_ports }
    requires places { (cost_places ports ≤ length costs.old) × (number_places ports ≤ length numbers.old) }
    ensures costs { Zeroed K.CostKind.row (cost_places ports) costs.old costs.new }
    ensures numbers { numbers.new ≡ replicate (number_places ports) 0 ++ drop (number_places ports) numbers.old }
{
    zero_costs(&mut costs[0..3 * ports]);
    numbers[0..(ports + 1) * ports].fill(0);
}
