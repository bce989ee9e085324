//! The keywords of JSON Schema Validation that evaluate no schema.
//!
//! They are `type`, `const`, `enum`, the limits of numbers, `multipleOf`, the limits of sizes,
//! `uniqueItems` and `dependentRequired`, as one keyword type with the table that makes them.
#![tactic(auto)]

mod assertion;
mod cloning;
mod constants;
mod dependents;
mod limits;
mod multiples;
mod numbers;
mod sizes;
mod table;
mod types;
mod values;

pub use assertion::Assertion;
pub use constants::{
    constant_text, distinct_text, has_distinct_items, has_distinct_items_by_pairs, is_constant,
    is_listed, listed_text,
};
pub use dependents::{has_dependents, missing_texts};
pub use limits::{LimitKind, keeps_limit, limit_text};
pub use multiples::{is_multiple, multiple_text};
pub use numbers::HeldNumber;
pub use sizes::{SizeKind, size_fits, size_text};
pub use table::AssertionTable;
pub use types::{Integers, TypeList, fits, fits_one};
pub use values::{
    count_made, dependents_made, enum_made, integers_of, is_draft_4, limit_made, multiple_made,
    size_made, type_made,
};
