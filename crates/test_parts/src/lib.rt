//! Parts that tests are built from, each with a property of its own.
//!
//! They are a resolver that never returns to a former state, a matcher that fails and runs out of
//! memory once, a keyword that requests more matches for errors than for the verdict, a table of a
//! keyword that marks its children, a vocabulary that only one draft requires, a chain of
//! references, a writer that refuses, and words that are not UTF-8. The crate also writes, as text,
//! the numbers that makers were given.
#![tactic(auto)]

mod detour_keyword;
mod draft_vocabularies;
mod failing_matcher;
mod given_numbers;
mod growing_resolver;
mod marking_table;
mod narrow_writer;
mod reference_chain;
mod words;

pub use detour_keyword::{DetourKeyword, DetourShape, nodes_of};
pub use draft_vocabularies::requiring_in_2019_09;
pub use failing_matcher::FailingMatcher;
pub use given_numbers::{Numbered, push_nodes};
pub use growing_resolver::GrowingResolver;
pub use marking_table::MarkingTable;
pub use narrow_writer::{NarrowWriter, push_written};
pub use reference_chain::row_of;
pub use words::{TwoWords, are_two_words, with_words};
