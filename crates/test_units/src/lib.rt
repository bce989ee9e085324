//! Tests without the engine, of facts that no clause states.
//!
//! They test the answers of a `Context` to a table's makers, the number of evaluation paths that
//! are kept, the standard's keywords as they are published, numbers and equality of values, sizes
//! in bytes, and public calls that nothing else makes. A row begins with the expected text.
//!
//! Tests have crates of their own because a crate with tests is proved twice. The rows of tests are
//! JSON texts, so that a row costs the prover nothing.
#![tactic(auto)]

#[cfg(test)]
mod constant_tests;
#[cfg(test)]
mod context_tests;
#[cfg(test)]
mod json_value_tests;
#[cfg(test)]
mod kept_path_tests;
#[cfg(test)]
mod keyword_table_tests;
#[cfg(test)]
mod rows;
#[cfg(test)]
mod single_call_tests;
