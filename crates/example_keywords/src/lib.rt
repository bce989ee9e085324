//! Examples of custom keywords, with the tables that make them.
#![tactic(auto)]

mod arrays;
mod strings;
mod wrapped;

pub use arrays::{ArrayKeyword, ArrayTable};
pub use strings::{KnownText, StringKeyword, StringTable};
pub use wrapped::{AllOf, NoText, OneOf, WrappedTable};
