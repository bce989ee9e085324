//! Lines of commands, each answered by a line.

use crate::cases::Engine;
use crate::commands::{Turn, take};
use anyhow::Result;
use schema_drafts::Draft;
use std::io::{BufRead, BufReader};

/// Answers a line, and returns whether to read another one.
fn answer_line<E: Engine>(
    rt: &HostRuntime,
    engine: &E,
    draft: &mut Draft,
    line: &[u8],
) -> Result<bool> {
    match take(rt.alloc(), engine, draft, line)? {
        Turn::Reply(reply) => {
            println!(rt; "{}", reply.as_str())?;
            Ok(true)
        }
        Turn::Stop => Ok(false),
    }
}

/// Reads lines until `stop` or the end of input, and answers each.
///
/// Schemas that do not name their draft are read in `draft` until a command sets another.
///
/// # Errors
///
/// Standard input cannot be read, standard output cannot be written, or out of memory.
pub fn answer_lines<E: Engine>(rt: &HostRuntime, engine: &E, draft: Draft) -> Result<()> {
    let mut draft = draft;
    let reader = BufReader::new(rt.alloc(), rt.reader())?;
    for line in reader.split(rt.alloc(), b'\n') {
        if !answer_line(rt, engine, &mut draft, line?.as_slice())? {
            break;
        }
    }
    Ok(())
}
