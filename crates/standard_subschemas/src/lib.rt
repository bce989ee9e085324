//! The parts of a document resolver that need no table of documents.
//!
//! By one of two rules, they read the members of a schema (its draft, identifier, names and
//! subschemas, and which keywords are known) and the texts of references (JSON pointers and URIs).
#![tactic(auto)]

mod below;
mod drafts;
mod fragment_names;
mod identifiers;
mod known;
mod named_drafts;
mod numbers;
mod plain;
mod pointers;
mod refusals;
mod rules;
mod schema_names;
mod steps;
mod uris;

pub use below::{
    FoundSchema, Inside, Lying, is_schema, subschemas, subschemas_found, subschemas_placed,
};
pub use drafts::{detected, text_member};
pub use fragment_names::{name_in_fragment, schema_name};
pub use identifiers::{dynamic_name, fragment_of, identifier, plain_name, without_fragment};
pub use known::is_known;
pub use named_drafts::names_draft_inside;
pub use numbers::add_number;
pub use plain::is_plain;
pub use pointers::{decoded, path_by_pointer, path_of_pointer, pointers_lead};
pub use refusals::refusal;
pub use rules::Rule;
pub use schema_names::{names_of_lists, names_of_objects, names_of_values};
pub use steps::value_below;
pub use uris::{normal_uri, or_base, own_uri, resolve_uri, root_base, uri_of, written_uri};
