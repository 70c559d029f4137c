// The worked example: its legs as code, how its chart is told, and its figures as facts of the definitions, which stand in specs/.
#![tactic(auto)]

pub mod legs;
pub mod listing;

ghost use Rattle.triangle_facts.specs.Figures.{TriangleFigures};

pub use legs::{LONG_ROUND, SHORT_ROUND, legs_at, rounds_agree, triangle_at, triangle_with_tonnes};
pub use listing::Listing;

// What the triangle and the charts made from it come to.
pub fn triangle_figures_stand()
    ensures { TriangleFigures }
{}
