//! JSON Schema validators for real-world schemas, built in one call.
//!
//! `validator_for` builds one by the default options, and `options` sets them first; `is_valid` and
//! its like build and ask in one call. Validators have the standard's keywords and regular
//! expressions. References lead to the documents that are supplied under their URIs, and schemas
//! are checked against the meta-schemas.
#![tactic(auto)]

mod build_options;
mod building;
mod calls;
mod error;
mod mentions;
mod sources;
mod supplied;

pub use build_options::{BuildOptions, options};
pub use building::StandardValidator;
pub use calls::{evaluate, is_valid, iter_errors, validate, validator_for};
pub use error::BuildError;
pub use error_causes::{best_match, causes};
pub use schema_engine::{
    Draft, ErrorEntry, ErrorIterator, Evaluation, Location, OutOfMemory, ValidationError,
};
pub use standard_meta::{MetaDocuments, MetaError, MetaSchemas};
