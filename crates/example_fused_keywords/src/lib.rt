//! A keyword that checks three members of a schema at once.
//!
//! This is `items`, which absorbs the neighbouring members `minItems` and `"type": "array"`. The
//! crate also has `minItems` by itself, the basic keywords as they are, and the table of all of
//! them.
#![tactic(auto)]

mod array;
mod checks;
mod keyword;
mod table;

pub use array::ArrayKeyword;
pub use checks::Check;
pub use keyword::{FusedKeyword, Shape};
pub use table::{FusedMaker, FusedTable};
