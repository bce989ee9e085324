//! Reads the characters of patterns: escapes, classes, names and counts.
//!
//! What is read here knows nothing of groups (ECMA-262, 22.2.1 and B.1.2).
#![tactic(auto)]

mod characters;
mod classes;
mod counts;
mod escapes;
mod faults;
mod members;
mod names;
mod parts;
mod properties;
mod spans;

pub use characters::{after, is_digit, is_letter, number};
pub use classes::class;
pub use counts::{braces, in_order};
pub use escapes::member;
pub use faults::{Fault, Kind, OutOfMemory, Stop};
pub use members::{dot_tree, member_tree, one_of};
pub use names::name;
pub use parts::{Count, Flags, Grammar, Letter, Member};
pub use spans::Spans;
