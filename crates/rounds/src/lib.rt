// Walks, rounds, rates, weights and marks: what holds of them on every chart and for every lawful kind. The definitions stand in specs/.
#![tactic(auto)]

ghost use Rattle.std.specs.Prelude.{◌≡◌, ℕ, ◌≤◌, true};
ghost use Rattle.limits.specs.Numbers.{most_cost};
ghost use Rattle.rows.specs.Rows.{Row, zero_row};
ghost use Rattle.rows.specs.Kinds.{Kind, Laws};
ghost use Rattle.rows.specs.Orders.{by_dollars, by_dollars_then_tonnes};
ghost use Rattle.charts.specs.Meaning.{Meaning, Within};
ghost use Rattle.rounds.specs.Legs.{LegsJoinPorts};
ghost use Rattle.rounds.specs.Bare.{less_one};
ghost use Rattle.rounds.specs.Theorems.{WalksAdd, WeightTells, PortsBound, ClosedWalksHold, CheaperWalksHold, KeptRoundsStand};
ghost use Rattle.rounds.specs.SearchTheorems.{LayersStand, WalksBackFind, CountFalls, BareTells, SizesFit};

// Walks join and split, and what they cost, take and weigh adds up.
pub fn walks_add()
    ensures { (m : Meaning) → WalksAdd m }
{}

// A walk weighs less than zero exactly when it is cheaper.
pub fn weights_tell()
    ensures { (k : Kind) → Laws k → (m : Meaning) → WeightTells k m }
{}

// A walk of as many legs as there are ports passes a port twice.
pub fn ports_bound_walks()
    ensures limits { (k : Kind) (m : Meaning) → Within k m → LegsJoinPorts m }
    ensures bound { (m : Meaning) → LegsJoinPorts m → PortsBound m }
{}

// Every closed walk holds a round, an idle one an idle round, a cheaper one a cheaper round.
pub fn closed_walks_hold_rounds()
    ensures rounds { (m : Meaning) → ClosedWalksHold m }
    ensures cheaper { (k : Kind) → Laws k → (m : Meaning) (c : Row) (t : ℕ) → CheaperWalksHold k m c t }
{}

// A kept round that is still there is a round.
pub fn kept_rounds_stand()
    ensures { (old : Meaning) → KeptRoundsStand old }
{}

// Layers lead to the marks, and tell that no closed walk is cheaper.
pub fn layers_stand()
    ensures { (k : Kind) → Laws k → (m : Meaning) → Within k m → (c : Row) (t : ℕ) → LayersStand k m c t }
{}

// A walk back from a port that a layer made lower comes to a cheaper round.
pub fn walks_back_find()
    ensures { (k : Kind) → Laws k → (m : Meaning) → Within k m → (c : Row) (t : ℕ) → WalksBackFind k m c t }
{}

// Taking cheaper rounds comes to an end.
pub fn count_falls()
    ensures { (k : Kind) → Laws k → (m : Meaning) → Within k m → CountFalls k m }
{}

// Asking for any round, and for an idle one, finds it exactly when there is one.
pub fn bare_charts_tell()
    ensures tells { (k : Kind) → Laws k → (cost : Row) → k.below cost zero_row ≡ true → (m : Meaning) → BareTells k m cost }
    ensures dollars { (by_dollars.below less_one zero_row ≡ true) × (by_dollars.size less_one ≤ most_cost) }
    ensures tonnes { (by_dollars_then_tonnes.below less_one zero_row ≡ true) × (by_dollars_then_tonnes.size less_one ≤ most_cost) }
{}

// Rates of rounds and weights of walks stay within what is exact.
pub fn sizes_fit()
    ensures { (k : Kind) → Laws k → (m : Meaning) → Within k m → SizesFit k m }
{}
