// Trials of the charts at every limit; the tests stand in a crate of their own, since a crate with tests is proved twice.
#![tactic(auto)]

#[cfg(test)]
mod layers;
#[cfg(test)]
mod tables;
