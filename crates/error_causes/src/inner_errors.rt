//! The causes of an error: what an evaluation says inside its keyword.
ghost use Rattle.std.specs.Prelude.{◌≡◌, ◌↔◌, [], Bool, IfOk, IfSome, IsNone, filter, map, option_copied};
ghost use Rattle.theory_definitions.specs.Pointer.{pointer_to};
ghost use Rattle.schema_reports.specs.UnitViews.{unit_of};
ghost use Rattle.schema_output.specs.EntryViews.{shown_of};
ghost use Rattle.schema_output.specs.Output.{shown_in};
ghost use Rattle.error_causes.specs.Causes.{IsFirstDeepest, depth_of, ends_or_steps, is_at, is_cause, is_within, steps_of};

use schema_output::{ErrorEntry, Evaluation};
use schema_reports::{OutOfMemory, ValidationError};
use std::alloc::Global;

/// Returns whether a pointer ends before this byte, or has a further step there.
fn ends_or_steps(next: Option<&u8>) -> bool
    ensures ends { result ≡ ends_or_steps (option_copied next.entry) }
{
    match next {
        None => true,
        Some(byte) => *byte == b'/',
    }
}

/// Returns whether a pointer is another one, or points below it.
fn is_within(outer: &str, inner: &str) -> bool
    ensures within { result ≡ is_within outer.now inner.now }
{
    let outer = outer.as_bytes();
    let inner = inner.as_bytes();
    inner.starts_with(outer) && ends_or_steps(inner.get(outer.len()))
}

/// Returns whether an error of an evaluation is a cause of the error at these places.
fn is_cause(path: &str, instance: &str, entry: &ErrorEntry<'_>) -> bool
    ensures cause { (texts : Bool) → result ≡ is_cause path.now instance.now (shown_of texts entry.now) }
{
    let own_path = entry.unit.evaluation_path.as_str();
    let own_instance = entry.unit.instance_location.as_str();
    is_within(path, own_path)
        && is_within(instance, own_instance)
        && !(own_path == path && own_instance == instance)
}

/// Returns the causes of an error, in the order of the evaluation.
///
/// These are the errors that the evaluation of the same instance reports inside the keyword of the
/// error: of `anyOf`, `oneOf` and `contains`, the errors of each branch. The evaluation path of
/// such an error goes on from the keyword's with the number of its branch.
///
/// # Errors
///
/// Out of memory.
pub fn causes<'e>(
    alloc: Global,
    evaluation: &'e Evaluation,
    error: &ValidationError<'_>,
) -> Result<Vec<ErrorEntry<'e>>, OutOfMemory>
    ensures causes { IfOk result (λ es. (texts : Bool) → map (shown_of texts) es.items
        ≡ filter (is_cause error.now.evaluation_path (pointer_to error.now.place)) (shown_in (unit_of texts evaluation.now))) }
{
    let path = error.evaluation_path.as_str();
    let instance_path = error.instance_path(alloc)?;
    let instance = instance_path.as_str();
    let mut found = Vec::new(alloc);
    for entry in evaluation.iter_errors(alloc)? {
        if is_cause(path, instance, &entry) {
            found.push(entry)?;
        }
    }
    Ok(found)
}

/// Returns how many steps a pointer has.
fn steps_of(pointer: &str) -> usize
    ensures steps { result ≡ steps_of pointer.now }
{
    pointer
        .as_bytes()
        .iter()
        .filter(|byte| **byte == b'/')
        .count()
}

/// Returns how deep in the instance an error lies.
fn depth_of(entry: &ErrorEntry<'_>) -> usize
    ensures depth { (texts : Bool) → result ≡ depth_of (shown_of texts entry.now) }
{
    steps_of(entry.unit.instance_location.as_str())
}

/// Returns the error that lies deepest in the instance; of several, the first.
///
/// Of the causes of an error it is mostly the one that a user has to mend.
pub fn best_match<'e>(errors: &[ErrorEntry<'e>]) -> Option<ErrorEntry<'e>>
    ensures none { IsNone result ↔ (errors.now ≡ []) }
    ensures deepest { IfSome result (IsFirstDeepest errors.now) }
{
    let mut best = 0;
    for i in 1..errors.len() {
        if depth_of(&errors[best]) < depth_of(&errors[i]) {
            best = i;
        }
    }
    errors.get(best).copied()
}
