//! The causes of an error: what an evaluation of the same instance says inside its keyword.
#![tactic(auto)]

mod inner_errors;

pub use inner_errors::{best_match, causes};
