//! The keywords of the standard, as one keyword type with one table.
//!
//! The keywords come in five families, one for each crate that makes them: assertions
//! (`standard_assertions`), applicators (`standard_applicators`), `patternProperties` and
//! `additionalProperties` (`standard_pattern_properties`), formats (`standard_formats`), and all
//! others (`standard_basics`).
//!
//! `specs/Treatments` says what happens to each keyword of each draft. A keyword that asserts or
//! applies subschemas, and that no family has, is refused by name: the table never ignores it. A
//! schema with a pattern that cannot be read is refused, or left to the matcher (`patterns`).
#![tactic(auto)]

mod family;
mod patterns;
mod steps;
mod table;
mod treatment;

pub use family::Family;
pub use patterns::{UnreadablePatterns, pattern_refusal};
pub use table::{StandardKeyword, StandardTable};
pub use treatment::{Treatment, refusal_text, treatment_of};
