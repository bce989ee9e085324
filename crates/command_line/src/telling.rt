//! Reports on standard error why there is no answer, and what to do next.

use crate::desk::Stop;
use crate::reports::fault_report;
use schema_files::LinkedFile;
use schema_reports::OutOfMemory;
use std::alloc::Global;
use std::fmt;

const READ: &str =
    "FILE is a path from the folder that the command runs in, or '-', which is standard input";

const PARSED: &str = "mend the text there; columns count bytes from 1";

/// Returns the report about a file: what went wrong, why, and what to do next.
fn report_of<W: fmt::Display>(
    alloc: Global,
    file: &str,
    what: &str,
    why: &W,
    hint: &str,
) -> Result<String, OutOfMemory> {
    let told = format!(in alloc; "{what}: {why}")?;
    fault_report(alloc, file, told.as_str(), hint)
}

/// Reports what went wrong with a file.
pub fn tell<W: fmt::Display>(
    rt: &HostRuntime,
    file: &str,
    what: &str,
    why: &W,
    hint: &str,
) -> Stop {
    match report_of(rt.alloc(), file, what, why, hint) {
        Ok(text) => {
            let _ = eprint!(rt; "{text}");
            drop(text);
            Stop::Told
        }
        Err(_refused) => Stop::OutOfMemory,
    }
}

/// Reports why a file cannot be read.
pub fn tell_unread(rt: &HostRuntime, file: &str, fault: &std::io::Error) -> Stop {
    tell(rt, file, "cannot be read", fault, READ)
}

/// Reports why a file is not JSON, and where.
pub fn tell_unparsed(rt: &HostRuntime, file: &str, fault: &serde_json::Error) -> Stop {
    if fault.is_memory() {
        return Stop::OutOfMemory;
    }
    tell(rt, file, "is not JSON", fault, PARSED)
}

/// Returns why a reference leads to no value.
fn unlinked_text(alloc: Global, file: &LinkedFile, why: &str) -> Result<String, OutOfMemory> {
    let reference = file.reference(alloc)?;
    let text = format!(in alloc; "{reference} leads to this file, which {why}");
    drop(reference);
    text
}

/// Reports that a schema is refused, and that a file that it refers to has no value.
pub fn tell_unlinked<W: fmt::Display>(
    rt: &HostRuntime,
    schema: &str,
    refused: &W,
    file: &LinkedFile,
    why: &str,
) -> Stop {
    match unlinked_text(rt.alloc(), file, why) {
        Ok(hint) => {
            let stop = tell(rt, schema, "is refused", refused, hint.as_str());
            drop(hint);
            stop
        }
        Err(_refused) => Stop::OutOfMemory,
    }
}
