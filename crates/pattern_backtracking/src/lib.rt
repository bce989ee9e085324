//! Whether a pattern matches, by going back, with a limit on steps.
//!
//! The machine is for patterns with back references. For some of them the number of steps grows
//! exponentially with the text, so a caller sets a limit. `specs/Counting` counts the steps of
//! ECMA-262's definition (`pattern_trees`, `specs/Matching`), and so fixes at which limit a search
//! is left unfinished.
#![tactic(auto)]

mod captures;
mod chars;
mod edges;
mod frames;
mod machine;
mod memory;
mod places;
mod search;
mod turns;

pub use memory::OutOfMemory;
pub use search::find_within;
