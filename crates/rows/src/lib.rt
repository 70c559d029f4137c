// Rows of whole numbers, the laws of a cost kind, and what follows from them. The definitions stand in specs/.
#![tactic(auto)]

ghost use Rattle.rows.specs.Kinds.{Kind, Laws};
ghost use Rattle.rows.specs.Orders.{by_dollars, by_dollars_then_tonnes};
ghost use Rattle.rows.specs.Theorems.{Consequences};

// The kinds at hand keep the laws.
pub fn orders_keep_laws()
    ensures money { Laws by_dollars }
    ensures tonnes { Laws by_dollars_then_tonnes }
{}

// What the laws alone give, for every kind.
pub fn laws_suffice()
    ensures { (k : Kind) → Laws k → Consequences k }
{}
