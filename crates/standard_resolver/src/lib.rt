//! A resolver of documents, proved to keep the laws of `Resolver`.
//!
//! It reads documents by one of two rules: the standard's own, or a narrow one for tests and for
//! the program `engine_bench`.
#![tactic(auto)]

mod dialects;
mod documents;
mod in_force;
mod names;
mod on_way;
mod places;
mod references;
mod resolver;
mod resources;
mod rows;
mod states;
mod vocabularies;
mod walk;

pub use crate::documents::Document;
pub use crate::places::root_place;
pub use crate::references::starts_at_the_innermost_resource;
pub use crate::resolver::{DocumentResolver, DocumentState, StatePoint};
pub use crate::rows::{dialect_rows, standard_rows, worked_rows};
pub use crate::vocabularies::DraftVocabularies;
pub use standard_subschemas::Rule;
