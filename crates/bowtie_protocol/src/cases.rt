//! Cases: a schema, and the instances to validate against it.

use crate::replies::{answered, fault, fault_of_test, verdict};
use schema_drafts::Draft;
use serde_json::Value;
use std::alloc::{AllocError, Global};

/// A case with its schema, and the number of its command if it has one.
#[derive(Clone, Copy)]
pub struct Case<'c> {
    pub seq: Option<&'c Value>,
    pub body: &'c Value,
    pub schema: &'c Value,
}

/// Accepts or refuses instances, as a validator does.
pub trait Judge {
    /// Returns whether the instance is accepted, or as an inner `Err` why there is no verdict.
    ///
    /// # Errors
    ///
    /// Out of memory.
    fn accepts(&self, alloc: Global, instance: &Value) -> Result<Result<bool, String>, AllocError>;
}

/// Answers cases.
pub trait Engine {
    /// Answers a case.
    ///
    /// A schema that does not name its draft is read in `draft`. The answer has a judge's verdicts
    /// on the tests (`Case::results`), or the reason why there are none (`Case::fault`).
    ///
    /// # Errors
    ///
    /// Out of memory.
    fn answer(&self, alloc: Global, draft: Draft, case: Case<'_>) -> Result<Value, AllocError>;
}

fn result_of<J: Judge>(alloc: Global, judge: &J, test: &Value) -> Result<Value, AllocError> {
    match test.get("instance") {
        Some(instance) => match judge.accepts(alloc, instance)? {
            Ok(accepted) => verdict(alloc, accepted),
            Err(why) => {
                let fault = fault_of_test(alloc, why.as_str());
                drop(why);
                fault
            }
        },
        None => fault_of_test(alloc, "the test has no instance"),
    }
}

fn add_results<J: Judge>(
    alloc: Global,
    judge: &J,
    tests: &[Value],
    results: &mut Vec<Value>,
) -> Result<(), AllocError> {
    for test in tests {
        results.push(result_of(alloc, judge, test)?)?;
    }
    Ok(())
}

fn results_of<J: Judge>(alloc: Global, judge: &J, tests: &[Value]) -> Result<Value, AllocError> {
    let mut results = Vec::new(alloc);
    add_results(alloc, judge, tests, &mut results)?;
    Ok(Value::Array(results))
}

impl Case<'_> {
    /// Returns the answer with the judge's verdict on each instance.
    ///
    /// # Errors
    ///
    /// Out of memory.
    pub fn results<J: Judge>(&self, alloc: Global, judge: &J) -> Result<Value, AllocError> {
        match self.body.get("tests").and_then(Value::as_array) {
            Some(tests) => answered(alloc, self.seq, results_of(alloc, judge, tests.as_slice())?),
            None => answered(alloc, self.seq, Value::Array(Vec::new(alloc))),
        }
    }

    /// Returns the answer with the reason why no instance can be validated.
    ///
    /// # Errors
    ///
    /// Out of memory.
    pub fn fault(&self, alloc: Global, message: &str) -> Result<Value, AllocError> {
        fault(alloc, self.seq, message)
    }
}
