//! The output formats of the standard that the engine has none of: `flag`, `basic` and
//! `hierarchical`.
#![tactic(auto)]

mod basic_units;
mod hierarchical_units;
mod keyword_units;
mod members;
mod rows;

pub use basic_units::{basic, basic_text, flag_text};
pub use hierarchical_units::{hierarchical, hierarchical_text};
pub use rows::worked_rows;
