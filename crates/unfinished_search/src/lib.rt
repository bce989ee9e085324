//! The search over the outcomes of matches that the matcher could not finish.
//!
//! The crate `unfinished_matches` defines the matches that a run meets and the outcomes that it
//! assumes. Some of its items are re-exported here.
#![tactic(auto)]

mod keyed;
mod search;
mod shared;
mod under_each;

pub use search::{MAX_ASSUMED_RUNS, Outcomes, assume_each_outcome, assume_within};
pub use shared::{errors, validity};
pub use under_each::{errors_under_each, validity_under_each};
pub use unfinished_matches::{Match, MatchAssumptions, MatchFailure, MatchSite, Reason};
