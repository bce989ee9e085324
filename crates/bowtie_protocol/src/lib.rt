//! The Bowtie protocol for testing implementations of JSON Schema side by side.
//!
//! Commands and replies are JSON, one on each line. `start` requests a description of the
//! implementation, `dialect` sets the draft of schemas that do not name theirs, `run` validates
//! several instances against a schema, and `stop` ends. If a line is not a command, the reply says
//! what is wrong with it, and the next line is read.
#![tactic(auto)]

mod cases;
mod commands;
mod lines;
mod replies;

pub use cases::{Case, Engine, Judge};
pub use lines::answer_lines;
