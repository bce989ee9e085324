//! The keywords `patternProperties` and `additionalProperties`.
//!
//! Both evaluate a schema at a member only if the member's name matches a pattern, or lies outside
//! the names and patterns that neighbouring keywords mention. The modules call this condition, with
//! the schema behind it, a gate: a question that is asked only if the condition holds. A gate is
//! open at a member if its condition holds for the member's name.
//!
//! `patternProperties` has a gate for each pattern, which is open if the pattern matches.
//! `additionalProperties` has one gate, which is open if no pattern matches; it looks only at the
//! members that `properties` does not list. With the value `false` it evaluates no schema, but
//! reports the members at which its gate is open.
#![tactic(auto)]

mod cloning;
mod gates;
mod keyword;
mod listed;
mod meanings;
mod members;
mod names;
mod table;
mod telling;

pub use gates::{Condition, Gate, GateRun, GateStage, Move, opens, take_asked};
pub use keyword::{GatedKeyword, Neighbours};
pub use listed::Listed;
pub use meanings::{
    additional_properties_means, no_additional_properties_means, pattern_properties_means,
    unexpected_names,
};
pub use members::{all_names, has_none, lists_each, unlisted_names};
pub use names::{NamesLeft, Texts};
pub use table::GatedTable;
pub use telling::unexpected_text;
