// Sheets: the legs of a chart or of a round as lines of text.
#![tactic(auto)]

pub mod form;
pub mod kind;
mod lines;
pub mod listing;
pub mod numbered;
pub mod places;
pub mod sheet;
pub mod tally;

pub use form::Form;
pub use kind::SheetKind;
pub use listing::write_sheet;
pub use numbered::NumberedLeg;
pub use places::Places;
pub use sheet::{BegunSheet, ClosedSheet};
pub use tally::Tally;

#[cfg(test)]
mod tests;
