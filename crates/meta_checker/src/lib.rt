//! Checkers: validators whose first error is a function of the instance.
//!
//! Meta validators have to have this property. Those of this crate have one checker for each draft.
#![tactic(auto)]

mod checker;
mod drafts;
mod laws;
mod nodes;
mod values;

pub use checker::Checker;
pub use drafts::DraftCheckers;
pub use laws::first_errors_are_told;
pub use nodes::{TellsFractions, show_no_fraction};
pub use values::has_fraction;
