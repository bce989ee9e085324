//! The program: validates JSON against a JSON Schema.
//!
//! `jsonschema_cli SCHEMA [-i FILE].. [--lines FILE]` reads a document from each file of `-i`, and
//! one from each line of the file of `--lines`. `--help` lists the other options. The exit status
//! is 0 if all documents are valid, 1 if one is not, and 2 if something could not be checked; then
//! standard error says why.
#![tactic(auto)]

mod building;
mod validating;

use crate::building::Standard;
use command_line::answer_call;
use std::process::ExitCode;

fn main(rt: HostRuntime) -> ExitCode {
    let outcome = answer_call(&rt, &Standard);
    ExitCode::from(outcome.code())
}
