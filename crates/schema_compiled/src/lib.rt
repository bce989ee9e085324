//! Compiled schemas, with the answers of their runs and of their solver.
#![tactic(auto)]

mod compiled_schema;
mod stopping;

pub use compiled_schema::{CallLimits, CompiledSchema};
pub use stopping::{CallLimit, limit_failure, limit_failure_alone, limit_text};
