//! The failure of a call that reaches one of its validator's limits.
ghost use Rattle.std.specs.Prelude.{◌≡◌, IfOk, string_bytes};
ghost use Rattle.serde_json.specs.View.{view};
ghost use Rattle.schema_compiled.specs.Stopped.{OnlyTellsLimit, TellsLimit, limit_name, limit_text};

use schema_reports::{Instance, Location, OutOfMemory, Place, ValidationError};
use serde_json::Value;
use std::alloc::Global;

/// A limit at which a call stops.
///
/// It is on the steps that the call takes, or on its depth: how many evaluations are open at once.
#[derive(Clone, Copy)]
pub enum CallLimit {
    Steps(u64),
    Depth(usize),
}

// Returns the keyword by which a limit is reported.
fn limit_name(alloc: Global, limit: CallLimit) -> Result<String, OutOfMemory>
    ensures name { IfOk result (λ name. string_bytes name ≡ limit_name limit) }
{
    match limit {
        CallLimit::Steps(_) => Ok(String::from_str(alloc, "workLimit")?),
        CallLimit::Depth(_) => Ok(String::from_str(alloc, "depthLimit")?),
    }
}

/// Returns the text by which a limit is reported.
///
/// # Errors
///
/// Out of memory.
pub fn limit_text(alloc: Global, limit: CallLimit) -> Result<String, OutOfMemory>
    ensures text { IfOk result (λ text. string_bytes text ≡ limit_text limit) }
{
    match limit {
        CallLimit::Steps(most) => Ok(format!(in alloc; "The limit of {most} steps was reached")?),
        CallLimit::Depth(most) => {
            Ok(format!(in alloc; "The limit of {most} nested evaluations was reached")?)
        }
    }
}

/// Returns the failure of a call that stopped at this limit.
///
/// # Errors
///
/// Out of memory.
pub fn limit_failure<'i>(
    alloc: Global,
    limit: CallLimit,
    instance: &'i Value,
) -> Result<ValidationError<'i>, OutOfMemory>
    ensures tells { IfOk result (TellsLimit (view instance.now) limit) }
{
    let text = limit_text(alloc, limit)?;
    let keyword = limit_name(alloc, limit)?;
    Ok(ValidationError {
        instance: Instance::Value(instance),
        place: Place::root(alloc),
        schema_path: Location::new(alloc),
        evaluation_path: Location::new(alloc),
        absolute_keyword_location: None,
        keyword,
        text,
    })
}

/// Returns the failure of a call that stopped at this limit, as the only error.
///
/// # Errors
///
/// Out of memory.
pub fn limit_failure_alone<'i>(
    alloc: Global,
    limit: CallLimit,
    instance: &'i Value,
) -> Result<Vec<ValidationError<'i>>, OutOfMemory>
    ensures tells { IfOk result (λ es. OnlyTellsLimit (view instance.now) es.items limit) }
{
    let failure = limit_failure(alloc, limit, instance)?;
    let mut alone = Vec::new(alloc);
    alone.push(failure)?;
    Ok(alone)
}
