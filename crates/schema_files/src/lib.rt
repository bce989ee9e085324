//! The files that a schema's references lead to.
//!
//! A document that is read from a file has that file's URI. Its references are resolved against this
//! URI, and where one leads to a file, the document there is read too.
#![tactic(auto)]

mod file_uris;
mod gathering;
mod references;

pub use file_uris::{file_uri, path_of_uri, paths_return, uri_of_path};
pub use gathering::{Files, LinkedFile, Supplied, linked_files};
pub use references::{Reference, references_in};
