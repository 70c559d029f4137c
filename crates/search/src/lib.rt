// The round of least rate on a chart, found within a lent work area.
#![tactic(auto)]

pub mod area;
pub mod back;
pub mod bare;
pub mod find;
pub mod first;
pub mod improve;
pub mod layer;
pub mod look;
mod offer;
pub mod over;
pub mod predecessors;
pub mod round;
pub mod search;
pub mod weights;

pub use area::clear_area;
pub use bare::{any_round, has_idle_round};
pub use find::find_least;
pub use first::first_round;
pub use improve::least_round;
pub use over::has_over;
pub use round::Held;
