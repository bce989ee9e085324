//! Prints what the engine says of an instance.
//!
//! The usage is `engine_bench MODE SCHEMA INSTANCE [UNFINISHED]`. The program runs the engine with
//! the basic keywords and their table, the document resolver, and a matcher and meta validators
//! that are made for tests and for this program.
#![tactic(auto)]

use bench_program::{Fault, given_words, refuse, run};
use std::process::ExitCode;

fn main(rt: HostRuntime) -> ExitCode {
    let mut out = rt.stdout();
    let mut err = rt.stderr();
    let status = match given_words(rt.alloc(), &rt) {
        Ok(words) => run(rt.alloc(), words.as_slice(), &mut out, &mut err),
        Err(_refused) => refuse(&mut err, Fault::OutOfMemory),
    };
    ExitCode::from(status.code())
}
