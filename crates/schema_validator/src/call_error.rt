//! Why a call within a budget returns no answer, and what a call takes of its budget.
ghost use Rattle.std.specs.Prelude.{◌≡◌};
ghost use Rattle.schema_run_context.specs.Works.{down_to};
ghost use Rattle.schema_validator.specs.Budgets.{IsCharged, NamesLimit, StepsAreTaken};

use schema_run_context::Work;
use std::error::Error;
use std::fmt;

/// Why a call within a budget returns no answer.
#[derive(Clone, Copy)]
pub enum CallError {
    /// Out of memory.
    OutOfMemory,
    /// The call needs one more step than its budget has left.
    WorkLimit,
    /// The call has to open one more evaluation at once than its budget allows.
    DepthLimit,
}

impl fmt::Display for CallError {
    fn fmt<W: fmt::Write>(&self, f: &mut fmt::Formatter<W>) -> fmt::Result {
        match self {
            CallError::OutOfMemory => write!(f, "memory could not be had"),
            CallError::WorkLimit => write!(f, "the limit on steps was reached"),
            CallError::DepthLimit => write!(f, "the limit on nested evaluations was reached"),
        }
    }
}

/// Writes the same text as `Display`.
impl fmt::Debug for CallError {
    fn fmt<W: fmt::Write>(&self, f: &mut fmt::Formatter<W>) -> fmt::Result {
        write!(f, "{self}")
    }
}

impl Error for CallError {}

// Returns the copy of a budget with which a call begins. It says nothing of the depth of earlier calls.
pub(crate) fn copy_for_call(work: Work) -> Work
    ensures copied { result ≡ down_to work.deepest work }
{
    work.with_depth(work.depth_limit())
}

// Returns a budget as it is after a call took its steps from a copy of it. The limit on depth stays,
// and no flag of it is set.
fn after_steps(work: Work, copy: Work) -> Work
    ensures { StepsAreTaken work copy result }
{
    let deepest = work.depth_limit();
    if let Some(before) = work.left() {
        if let Some(left) = copy.left() {
            if left <= before {
                return copy.with_depth(deepest);
            }
        }
    }
    work.with_depth(deepest)
}

// Returns a budget as it is after a call. It says that it was too small in depth if the copy does.
fn after_call(work: Work, copy: Work) -> Work
    ensures { IsCharged work copy result }
{
    let mut after = after_steps(work, copy);
    if !copy.is_too_deep() {
        return after;
    }
    after.stop_at_depth();
    after
}

// Charges a budget with what a call took of a copy of it. A budget without a limit stays as it is,
// and none gets more than it had, whatever the call did with the copy.
pub(crate) fn charge(work: &mut Work, copy: Work)
    ensures { IsCharged work.old copy work.new }
{
    *work = after_call(*work, copy);
}

// Charges a budget in the same manner, and returns why the call has no answer.
pub(crate) fn charge_failure(work: &mut Work, copy: Work) -> CallError
    ensures charged { IsCharged work.old copy work.new }
    ensures names { NamesLimit work.old work.new result }
{
    charge(work, copy);
    if work.is_too_deep() {
        return CallError::DepthLimit;
    }
    if work.is_stopped() {
        return CallError::WorkLimit;
    }
    CallError::OutOfMemory
}
