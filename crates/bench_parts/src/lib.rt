//! Parts of the engine made for tests and for the program `engine_bench`.
//!
//! They keep the laws of the traits that they implement, such as `Matcher` and `MetaValidators`.
#![tactic(auto)]

mod matcher;
mod meta;
mod meta_place;

pub use matcher::BenchMatcher;
pub use meta::BenchMeta;
