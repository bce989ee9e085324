//! The output of an evaluation: as a list, as single errors, and as units made of the errors of a
//! run.
#![tactic(auto)]

mod error_units;
mod errors;
mod evaluation;
mod list;
mod rows;
mod text;

pub use error_units::unit_of_errors;
pub use errors::{ErrorEntry, EvaluationErrors};
pub use evaluation::Evaluation;
pub use rows::worked_rows;
