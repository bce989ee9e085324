//! Replies to commands.

use serde_json::{Value, json};
use std::alloc::{AllocError, Global};

/// The reply to `start`: a description of the implementation.
///
/// It lists the URIs of the dialects' meta-schemas, newest first.
pub(crate) const STARTED: &str = concat!(
    r#"{"implementation":{"dialects":["https://json-schema.org/draft/2020-12/schema","https://json-schema.org/draft/2019-09/schema","#,
    r#""http://json-schema.org/draft-07/schema#","http://json-schema.org/draft-06/schema#","http://json-schema.org/draft-04/schema#"],"#,
    r#""homepage":"https://lubhaxeni.example/","issues":"https://lubhaxeni.example/issues","language":"rattle","name":"lubhaxeni","#,
    r#""source":"https://lubhaxeni.example/source","version":"0.1.0"},"version":1}"#,
);

/// Returns the number of a command, or null.
fn number_of(seq: Option<&Value>) -> Result<Value, AllocError> {
    match seq {
        Some(seq) => seq.clone(),
        None => Ok(Value::Null),
    }
}

pub(crate) fn obeyed(alloc: Global, ok: bool) -> Result<Value, AllocError> {
    json!(in alloc; {"ok": Value::Bool(ok)})
}

pub(crate) fn verdict(alloc: Global, valid: bool) -> Result<Value, AllocError> {
    json!(in alloc; {"valid": Value::Bool(valid)})
}

/// Returns the results of the command with this number.
pub(crate) fn answered(
    alloc: Global,
    seq: Option<&Value>,
    results: Value,
) -> Result<Value, AllocError> {
    let seq = number_of(seq)?;
    json!(in alloc; {"results": results, "seq": seq})
}

/// Returns the `context` of a fault, which says what is wrong.
fn context(alloc: Global, message: &str) -> Result<Value, AllocError> {
    json!(in alloc; {"message": message})
}

/// Returns the fault of a test that is not answered.
pub(crate) fn fault_of_test(alloc: Global, message: &str) -> Result<Value, AllocError> {
    let context = context(alloc, message)?;
    json!(in alloc; {"context": context, "errored": Value::Bool(true)})
}

fn fault_by(alloc: Global, seq: Value, context: Value) -> Result<Value, AllocError> {
    json!(in alloc; {"context": context, "seq": seq, "errored": Value::Bool(true)})
}

/// Returns the fault of a command that is not answered.
pub(crate) fn fault(
    alloc: Global,
    seq: Option<&Value>,
    message: &str,
) -> Result<Value, AllocError> {
    let seq = number_of(seq)?;
    fault_by(alloc, seq, context(alloc, message)?)
}
