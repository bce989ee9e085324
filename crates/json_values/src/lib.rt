//! Numbers and equality of JSON values, as JSON Schema defines them.
//!
//! Numbers are compared without rounding, 1.0 is an integer, 1 equals 1.0, and the
//! members of an object have no order.
//!
//! A `Number` of `serde_json` is an integer of 64 bits or a float, and each function here takes it
//! for exactly that number. Digits that were lost when the text of a number was read, such as those
//! past 64 bits, do not come back.
#![tactic(auto)]

mod distinct;
mod equality;
mod held;
mod numbers;
mod wholes;

use std::alloc::AllocError;

/// The allocator refused memory.
pub type OutOfMemory = AllocError;

pub use distinct::are_all_distinct;
pub use equality::{are_all_distinct_by_pairs, is_among, is_equal};
pub use held::HeldValue;
pub use numbers::{Kind, compare, held_as, is_at_most, is_less, is_same_number};
pub use wholes::{is_integer_valued, is_whole, natural_of};
