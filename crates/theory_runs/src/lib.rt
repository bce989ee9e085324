//! Definitions and lemmas about the run of a numbered node.
//!
//! They describe a run by its steps alone. This crate has no code; the crates with the runs build
//! on it.
#![tactic(auto)]
