//! Reads the texts of patterns as trees (ECMA-262, 22.2.1 and B.1.2).
//!
//! `specs/Reading` says what a text means: the grammar with the flag u, or else the older grammar,
//! with a few spellings of other engines.
#![tactic(auto)]

mod clashes;
mod edges;
mod errors;
mod groups;
mod openings;
mod parts;
mod reader;
mod states;
mod steps;
mod terms;

pub use errors::ReadError;
pub use pattern_characters::{Fault, Kind, OutOfMemory};
pub use reader::{Pattern, read};
