//! Matches that a matcher could not finish.
//!
//! A run records where it met them, and may assume their outcomes.
#![tactic(auto)]

mod assumptions;
mod located;
mod positions;
mod site;

pub use assumptions::{AssumedOutcomes, MatchAssumptions};
pub use located::LocatedMatches;
pub use positions::{add_position, match_hash, reserve_next};
pub use site::{LocatedMatch, Match, MatchFailure, MatchSite, Reason, UnfinishedMatch, place_of};
