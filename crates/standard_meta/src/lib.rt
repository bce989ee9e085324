//! Checks schemas by the meta-schema of their draft, compiled by this engine.
//!
//! `StandardMeta` is the last of the parts that a build requires.
#![tactic(auto)]

mod documents;
mod error;
mod meta;
mod no_meta;
mod wholeness;

pub use documents::{MetaDocument, MetaDocuments};
pub use error::MetaError;
pub use meta::{MetaSchemas, StandardChecker};
pub use wholeness::StandardFractions;
