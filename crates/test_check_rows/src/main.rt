//! Judges rows of cases for the engine.
//!
//! `test_check_rows FILE ..` reads rows as JSON, one on each line. It prints each row whose answer
//! is not the wanted one, and then how many rows there were and how many were wrong. The exit
//! status is 0 if all rows are right, and 1 otherwise.
#![tactic(auto)]

use anyhow::Context;
use serde_json::Value;
use standard_keywords::StandardTable;
use std::alloc::{AllocError, Global};
use std::collections::BTreeSet;
use std::env::Env;
use std::process::ExitCode;
use std::rt::Files;
use std::{env, fs, io};
use test_row_answers::answer;
use test_rows::{Answering, Tally, Wrong, count_wrong, summary};

/// The engine, with the tables of cases.
struct Engine {}

impl Answering for Engine {
    fn answer(&self, alloc: Global, case: &Value) -> Result<Value, AllocError> {
        answer(alloc, case, &StandardTable::new())
    }
}

/// Judges the rows of a file, and prints a line for each wrong one.
fn check_file<R: Files + Print + AllocGlobal>(
    rt: &R,
    tally: &mut Tally,
    file: &str,
) -> anyhow::Result<()> {
    let text = fs::read_to_string(rt, file).context(format_args!("reading {file}"))?;
    for (number, line) in text.lines().enumerate() {
        if line.trim().is_empty() {
            continue;
        }
        if let Some(wrong) = tally.judge(rt.alloc(), &Engine {}, line)? {
            tell(rt, wrong, number.saturating_add(1), file)?;
        }
    }
    Ok(())
}

/// Prints the line of a wrong row, with its name, or else its place.
fn tell(rt: &impl Print, wrong: Wrong, number: usize, file: &str) -> io::Result<()> {
    let Wrong { name, given } = wrong;
    match name {
        Some(name) => println!(rt; "wrong: {name}\t{given}"),
        None => println!(rt; "wrong: line {number} of {file}\t{given}"),
    }
}

/// Judges the rows of all files that the arguments of the process name.
///
/// Prints how many rows there were, and returns how many of them are wrong.
fn check_files<R: Files + Env + Print + AllocGlobal>(rt: &R) -> anyhow::Result<usize> {
    let mut tally = Tally {
        verdicts: Vec::new(rt.alloc()),
        names: BTreeSet::new(rt.alloc()),
    };
    for file in env::args(rt)?.skip(1) {
        check_file(rt, &mut tally, file.as_str())?;
    }
    let line = summary(rt.alloc(), tally.verdicts.as_slice())?;
    println!(rt; "{line}")?;
    Ok(count_wrong(tally.verdicts.as_slice()))
}

fn main(rt: HostRuntime) -> anyhow::Result<ExitCode> {
    Ok(if check_files(&rt)? == 0 {
        ExitCode::SUCCESS
    } else {
        ExitCode::FAILURE
    })
}
