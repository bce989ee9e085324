//! Keys of schemas, where they are, and the keys that they lead to.
//!
//! A node is compiled for each key.
#![tactic(auto)]

mod check;
mod context;
mod error;
mod key;
mod keys;
mod options;
mod references;
mod schemas;
mod start;
mod subschema;
mod text;
mod values;

pub use check::validate_schema;
pub use context::{Context, DeferredAbsoluteLocation};
pub use error::BuildError;
pub use key::SchemaKey;
pub use keys::{Keys, find};
pub use options::CompileOptions;
pub use references::{RefTarget, ReferenceKind, reference_kind};
pub use schemas::schemas_in;
pub use values::{Reading, object_of, value_of};
