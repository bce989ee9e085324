//! Commands, and the replies to them.

use crate::cases::{Case, Engine};
use crate::replies::{STARTED, fault, obeyed};
use schema_drafts::Draft;
use serde_json::Value;
use std::alloc::{AllocError, Global};

/// The result of a line: a reply, or the end.
#[derive(Drop)]
pub(crate) enum Turn {
    Reply(String),
    Stop,
}

/// The kind of a command.
#[derive(Clone, Copy)]
enum Word {
    Start,
    Dialect,
    Run,
    Stop,
    Unknown,
}

fn word_named(name: &str) -> Word {
    match name {
        "start" => Word::Start,
        "dialect" => Word::Dialect,
        "run" => Word::Run,
        "stop" => Word::Stop,
        _ => Word::Unknown,
    }
}

/// Returns the draft of a dialect.
fn draft_of(uri: &str) -> Option<Draft> {
    match uri {
        "http://json-schema.org/draft-04/schema" | "http://json-schema.org/draft-04/schema#" =>
            Some(Draft::Draft4),
        "http://json-schema.org/draft-06/schema" | "http://json-schema.org/draft-06/schema#" =>
            Some(Draft::Draft6),
        "http://json-schema.org/draft-07/schema" | "http://json-schema.org/draft-07/schema#" =>
            Some(Draft::Draft7),
        "https://json-schema.org/draft/2019-09/schema"
        | "https://json-schema.org/draft/2019-09/schema#" => Some(Draft::Draft201909),
        "https://json-schema.org/draft/2020-12/schema"
        | "https://json-schema.org/draft/2020-12/schema#" => Some(Draft::Draft202012),
        _ => None,
    }
}

/// Returns the text that a command has under a name, or the empty text.
fn text_in<'c>(command: &'c Value, name: &str) -> &'c str {
    command.get(name).and_then(Value::as_str).unwrap_or("")
}

/// Returns the number of a command, if it has one.
fn seq_of(command: &Value) -> Option<&Value> {
    command.get("seq")
}

fn reply(alloc: Global, value: Value) -> Result<Turn, AllocError> {
    let text = value.to_string(alloc);
    drop(value);
    Ok(Turn::Reply(text?))
}

/// Replies with the fault of a command.
fn refuse(alloc: Global, seq: Option<&Value>, message: &str) -> Result<Turn, AllocError> {
    reply(alloc, fault(alloc, seq, message)?)
}

/// Replies with a description of the implementation.
fn start(alloc: Global, command: &Value) -> Result<Turn, AllocError> {
    if command.get("version").and_then(Value::as_u64) == Some(1) {
        Ok(Turn::Reply(String::from_str(alloc, STARTED)?))
    } else {
        refuse(alloc, None, "the version of the protocol is not 1")
    }
}

/// Sets the draft of schemas that do not name theirs.
fn speak(alloc: Global, draft: &mut Draft, command: &Value) -> Result<Turn, AllocError> {
    match draft_of(text_in(command, "dialect")) {
        Some(spoken) => {
            *draft = spoken;
            reply(alloc, obeyed(alloc, true)?)
        }
        None => reply(alloc, obeyed(alloc, false)?),
    }
}

/// Validates several instances against a schema.
fn run<E: Engine>(
    alloc: Global,
    engine: &E,
    draft: Draft,
    seq: Option<&Value>,
    body: &Value,
) -> Result<Turn, AllocError> {
    match body.get("schema") {
        Some(schema) => {
            let case = Case { seq, body, schema };
            reply(alloc, engine.answer(alloc, draft, case)?)
        }
        None => refuse(alloc, seq, "the case has no schema"),
    }
}

fn obey<E: Engine>(
    alloc: Global,
    engine: &E,
    draft: &mut Draft,
    command: &Value,
) -> Result<Turn, AllocError> {
    let seq = seq_of(command);
    match word_named(text_in(command, "cmd")) {
        Word::Start => start(alloc, command),
        Word::Dialect => speak(alloc, draft, command),
        Word::Run => match command.get("case") {
            Some(body) => run(alloc, engine, *draft, seq, body),
            None => refuse(alloc, seq, "there is no case"),
        },
        Word::Stop => Ok(Turn::Stop),
        Word::Unknown => refuse(alloc, seq, "the command is not known"),
    }
}

/// Replies with the reason why a line is not a command.
fn refuse_line(alloc: Global, error: &serde_json::Error) -> Result<Turn, AllocError> {
    let text = format!(in alloc; "the line cannot be read: {error}")?;
    refuse(alloc, None, text.as_str())
}

/// Takes a line and returns its result.
pub(crate) fn take<E: Engine>(
    alloc: Global,
    engine: &E,
    draft: &mut Draft,
    line: &[u8],
) -> Result<Turn, AllocError> {
    match Value::from_slice(alloc, line) {
        Ok(command) => {
            let turn = obey(alloc, engine, draft, &command);
            drop(command);
            turn
        }
        Err(error) => {
            let turn = refuse_line(alloc, &error);
            drop(error);
            turn
        }
    }
}
