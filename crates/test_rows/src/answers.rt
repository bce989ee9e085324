//! The answers of the four calls for one instance, and whether they agree.

use schema_reports::OutOfMemory;
use serde_json::{Value, json};
use std::alloc::Global;

/// The answers of the four calls for one instance.
///
/// Each is a value: the result of the call, or its refusal.
#[derive(Drop)]
pub struct Answers {
    /// The verdict.
    pub valid: Value,
    /// The first error, or `null`.
    pub first: Value,
    /// The list of errors.
    pub errors: Value,
    /// The verdict of the evaluation.
    pub evaluated: Value,
}

// Returns whether an answer is the first of these errors, or `null` if there are none.
fn is_first(first: &Value, errors: &[Value]) -> bool {
    match errors.first() {
        Some(error) => first == error,
        None => first.is_null(),
    }
}

impl Answers {
    // Returns whether the calls agree: they accept exactly if there is no error, and the first
    // error is the first of the list.
    fn is_agreed(&self) -> bool {
        let (Some(valid), Some(errors)) = (self.valid.as_bool(), self.errors.as_array()) else {
            return false;
        };
        valid == errors.is_empty()
            && self.evaluated.as_bool() == Some(valid)
            && is_first(&self.first, errors.as_slice())
    }

    // Returns whether each call is refused, and for the same reason.
    fn is_refused(&self) -> bool {
        self.valid.get("refused").is_some()
            && self.first == self.valid
            && self.errors == self.valid
            && self.evaluated == self.valid
    }
}

/// Returns the errors if the calls agree, or the refusal if all have the same.
///
/// Otherwise returns the answer of each.
pub fn agreed(alloc: Global, answers: Answers) -> Result<Value, OutOfMemory> {
    let agreed = answers.is_agreed() || answers.is_refused();
    let Answers {
        valid,
        first,
        errors,
        evaluated,
    } = answers;
    if agreed {
        return Ok(errors);
    }
    let answers = vec![in alloc; valid, first, errors, evaluated]?;
    disagreement(alloc, "is_valid, validate, iter_errors, evaluate", answers)
}

/// Returns the answers of calls that should agree but do not.
///
/// The names of the calls come with them.
pub fn disagreement(alloc: Global, calls: &str, answers: Vec<Value>) -> Result<Value, OutOfMemory> {
    json!(in alloc; {"disagree": calls, "answers": answers})
}
