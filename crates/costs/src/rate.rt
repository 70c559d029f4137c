// The rate of a round: its summed cost over its summed hours.
ghost use Rattle.std.specs.Prelude.{◌≡◌, ◌*◌, ◌≤◌};
ghost use Rattle.limits.specs.Numbers.{exact_size};
ghost use Rattle.rows.specs.Kinds.{cheaper};

use crate::kind::CostKind;

#[derive(Clone, Copy)]
pub struct Rate<K> {
    pub cost: K,
    pub hours: u64,
}

impl<K: CostKind> Rate<K> {
    // Compared by multiplying across, never by dividing, so that nothing is rounded.
    pub fn is_cheaper_than(self, other: Rate<K>) -> bool
        ensures { let k = K.CostKind.kind in
            let a = K.CostKind.row self.cost in
            let b = K.CostKind.row other.cost in
            k.size a ≤ exact_size → k.size b ≤ exact_size → other.hours * k.size a ≤ exact_size → self.hours * k.size b ≤ exact_size →
            result ≡ cheaper k a self.hours b other.hours }
    {
        self.cost
            .multiple(other.hours)
            .below(other.cost.multiple(self.hours))
    }
}
