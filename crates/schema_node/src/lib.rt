//! Runs of numbered nodes over an instance.
//!
//! The traits of a run's parts, the context and the table of nodes are reexported.
#![tactic(auto)]

mod node;

pub use node::runs::{FirstQuestion, RunNodes};
