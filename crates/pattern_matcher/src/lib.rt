//! A matcher of ECMA-262 regular expressions, by the standard's own definition.
//!
//! `Patterns::for_schemas` reads the patterns of documents, and `PatternMatcher::new` makes a
//! matcher that owns them. An answer depends only on the pattern's text and on how the matcher
//! treats patterns that it cannot always decide: the table only avoids reading a pattern again.
#![tactic(auto)]

mod answers;
mod documents;
mod matcher;
mod patterns;
mod plain;
mod read_pattern;
mod reading;
mod treatment;

pub use documents::patterns_of;
pub use matcher::PatternMatcher;
pub use patterns::Patterns;
pub use read_pattern::{ReadPattern, is_readable};
pub use reading::fault_text;
pub use treatment::{Treatment, Unreadable};
