//! Sets of the positions of a text, as rows of bits.
#![tactic(auto)]

mod row;
mod word;

pub use row::Row;
pub use word::{both, either, lowest, ones, with, with_span, without};
