// Charts of legs: what every chart shows, the two that stand over a table, and the layers that stand on any chart.
#![tactic(auto)]

pub mod chart;
pub mod closures;
pub mod grid;
pub mod hire;
pub mod layer;
pub mod leg;
pub mod limited;
pub mod stays;
mod table;
pub mod written;

pub use chart::Chart;
pub use closures::Closures;
pub use grid::GridChart;
pub use hire::Hire;
pub use layer::{Layer, Layered};
pub use leg::{Entry, Leg};
pub use stays::Stays;
pub use table::put;
pub use written::WrittenChart;
