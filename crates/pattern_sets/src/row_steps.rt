//! One step of a pattern on rows, and any number of steps over one set.
ghost use Rattle.std.specs.Prelude.{◌≡◌, ◌<◌, ◌≤◌, ◌+◌, ◌-◌, ◌/◌, ◌^◌, ℕ, IfOk, Some, None, length, true, false};
ghost use Rattle.pattern_trees.specs.Patterns.{At, One, Repeat};
ghost use Rattle.pattern_rows.specs.Rows.{has, width};
ghost use Rattle.pattern_sets.specs.Images.{IsTaken, Leaves, RunsFor, Steps, Walks, leads};

use crate::at_position::{is_at, takes};
use crate::runs::{after_run, run_end, run_start};
use crate::turns::most_turns;
use pattern_rows::Row;
use pattern_trees::{CharSet, Edge};
use std::alloc::{AllocError, Global};

/// Memory was refused.
pub type OutOfMemory = AllocError;

/// Returns where one character of a set leads, on.
///
/// # Errors
///
/// Fails only if memory cannot be allocated.
pub fn step_on(alloc: Global, set: &CharSet, text: &[char], from: &Row) -> Result<Row, OutOfMemory>
    requires sized { width from.now ≡ length text.now / 64 }
    requires short { length text.now < 2 ^ 60 }
    ensures walks { IfOk result (Walks true (One set.now.spans.items) text.now from.now) }
{
    let mut to = Row::empty(alloc, text.len())?;
    let mut i = 0;
    'steps: while let Some(m) = from.next(i) {
        if m < text.len() && set.has(text[m]) {
            to.put(m + 1);
        }
        i = m + 1;
    }
    Ok(to)
}

/// Returns where one character of a set leads, back.
///
/// # Errors
///
/// Fails only if memory cannot be allocated.
pub fn step_back(
    alloc: Global,
    set: &CharSet,
    text: &[char],
    from: &Row,
) -> Result<Row, OutOfMemory>
    requires sized { width from.now ≡ length text.now / 64 }
    requires short { length text.now < 2 ^ 60 }
    ensures walks { IfOk result (Walks false (One set.now.spans.items) text.now from.now) }
{
    let mut to = Row::empty(alloc, text.len())?;
    let mut i = 0;
    'steps: while let Some(m) = from.next(i) {
        if 0 < m && m <= text.len() && set.has(text[m - 1]) {
            to.put(m - 1);
        }
        i = m + 1;
    }
    Ok(to)
}

// Returns where runs of characters of a set lead, on, of a least and a greatest length.
fn runs_on(
    alloc: Global,
    set: &CharSet,
    text: &[char],
    least: usize,
    most: usize,
    from: &Row,
) -> Result<Row, OutOfMemory>
    requires sized { width from.now ≡ length text.now / 64 }
    requires short { length text.now < 2 ^ 60 }
    requires ordered { least ≤ most }
    requires few { most < 2 ^ 61 }
    ensures runs { IfOk result (Leaves (RunsFor set.now.spans.items text.now least most) from.now) }
{
    let mut to = Row::empty(alloc, text.len())?;
    let mut end = 0;
    let mut past = 0;
    let mut i = 0;
    'steps: while let Some(m) = from.next(i) {
        let start = run_start(m, end);
        let stop = (m + most).min(text.len());
        end = run_end(set, text, start, stop);
        let first = (m + least).max(past);
        to.put_span(first, end);
        past = end + 1;
        i = after_run(m, end, most);
    }
    Ok(to)
}

/// Returns where so many characters of a set lead, on, and up to so many more.
///
/// # Errors
///
/// Fails only if memory cannot be allocated.
pub fn times_on(
    alloc: Global,
    set: &CharSet,
    text: &[char],
    least: u32,
    more: Option<u32>,
    from: &Row,
) -> Result<Row, OutOfMemory>
    requires sized { width from.now ≡ length text.now / 64 }
    requires short { length text.now < 2 ^ 60 }
    ensures walks { IfOk result (Walks true (Repeat least more (One set.now.spans.items)) text.now from.now) }
{
    let most = most_turns(least, more, text.len());
    let to = runs_on(alloc, set, text, least as usize, most, from)?;
    Ok(to)
}

// Returns whether a position is in a row, and the character before it in a set.
#[inline]
fn leads_back(set: &CharSet, text: &[char], row: &Row, position: usize) -> bool
    requires some { 0 < position }
    ensures yes { result ≡ true → (has row.now position ≡ true) × IsTaken set.now.spans.items text.now (position - 1) }
    ensures no { result ≡ false → has row.now position ≡ true → ¬ (IsTaken set.now.spans.items text.now (position - 1)) }
{
    row.has(position) && takes(set, text, position - 1)
}

/// Returns where any number of characters of a set lead, back.
pub fn run_back(set: &CharSet, text: &[char], from: Row) -> Row
    requires sized { width from ≡ length text.now / 64 }
    requires short { length text.now < 2 ^ 60 }
    ensures leaves { Leaves (Steps None (leads false (One set.now.spans.items) text.now)) from result }
{
    let mut to = from;
    let mut m = text.len();
    'steps: while 0 < m {
        if leads_back(set, text, &to, m) {
            to.put(m - 1);
        }
        m -= 1;
    }
    to
}

/// Returns the positions where an assertion holds.
///
/// # Errors
///
/// Fails only if memory cannot be allocated.
pub fn keep_edges(
    alloc: Global,
    edge: Edge,
    text: &[char],
    forward: bool,
    from: &Row,
) -> Result<Row, OutOfMemory>
    requires sized { width from.now ≡ length text.now / 64 }
    requires short { length text.now < 2 ^ 60 }
    ensures walks { IfOk result (Walks forward (At edge) text.now from.now) }
{
    let mut to = Row::empty(alloc, text.len())?;
    let mut i = 0;
    'steps: while let Some(m) = from.next(i) {
        if is_at(edge, text, m) {
            to.put(m);
        }
        i = m + 1;
    }
    Ok(to)
}
