//! Whether a pattern without back references matches, by sets of positions.
#![tactic(auto)]

mod at_position;
mod folding;
mod matching;
mod preparing;
mod row_steps;
mod row_walks;
mod runs;
mod turns;
mod word_steps;
mod word_walks;

pub use matching::{matches, row_matches};
pub use preparing::prepare;
pub use row_steps::OutOfMemory;
pub use row_walks::walk;
pub use word_walks::{word_matches, word_walk};
