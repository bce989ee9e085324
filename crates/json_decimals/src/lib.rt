//! Multiples of JSON numbers, where each number stands for the decimal that was written.
//!
//! A `Number` of `serde_json` is an integer of 64 bits or a float. 4.35 is read as a float that is
//! no multiple of the float 0.01, though 4.35 is a multiple of 0.01. So a float stands here for the
//! decimal of at most 15 digits that reads as it, if there is one, and else for its exact value.
#![tactic(auto)]

mod amounts;
mod decimals;
mod multiples;
mod searches;

pub use multiples::is_multiple_of;
