// Cost kinds: what a cost is, the two kinds at hand, and the comparison of two rates.
#![tactic(auto)]

pub mod kind;
pub mod money;
pub mod money_tonnes;
pub mod rate;
mod whole;

pub use kind::CostKind;
pub use money::Money;
pub use money_tonnes::MoneyTonnes;
pub use rate::Rate;

#[cfg(test)]
mod tests;
