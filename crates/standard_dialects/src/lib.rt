//! What a `$schema` and a `$vocabulary` mean by the standard.
//!
//! A `$schema` names a draft by a URI of the standard, and the `$vocabulary` of a meta-schema lists
//! the vocabularies that it puts in force.
#![tactic(auto)]

mod listed_vocabularies;
mod standard_drafts;

pub use listed_vocabularies::vocabularies_listed;
pub use standard_drafts::standard_draft;
