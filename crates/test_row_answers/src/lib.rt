//! Cases of the engine as plain data: both a case and its answer are a `Value`.
//!
//! A case is an object. Its member `call` names the call, `schema` and `instance` are its
//! arguments, and the other members, which are optional, say how the schema is built. Only the
//! modules `asking`, `building`, `checking`, `clones`, `free_calls` and `maps` call the engine: a
//! function that owns all parts of the engine, and drops them at each exit, is costly to prove.
#![tactic(auto)]

mod answering;
mod asking;
mod building;
mod checking;
mod clones;
mod free_calls;
mod maps;
mod refusals;
mod setting;

pub use answering::answer;
