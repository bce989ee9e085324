//! The turns of a quantifier (ECMA-262, 22.2.2.3.1).
ghost use Rattle.std.specs.Prelude.{◌≡◌, IfOk};
ghost use Rattle.pattern_trees.specs.Matching.{fewer, is_spent};
ghost use Rattle.pattern_backtracking.specs.Counting.{ordered_trace, repeated_trace};
ghost use Rattle.pattern_backtracking.specs.Piles.{Adds, more_trace, state, turned_trace, visited};

use crate::captures::clear;
use crate::frames::{Frame, Task, copy_captures, copy_tasks, push_frame, push_two};
use crate::memory::OutOfMemory;
use pattern_trees::{Span, Tree, Turns};
use std::alloc::Global;

// Returns the turns that are left after one.
fn fewer(turns: Turns) -> Turns
    ensures fewer { result ≡ fewer turns }
{
    let Turns {
        min,
        max,
        greedy,
        groups_before,
        group_count,
    } = turns;
    let max = match max {
        None => None,
        Some(n) => Some(n.saturating_sub(1)),
    };
    Turns {
        min: min.saturating_sub(1),
        max,
        greedy,
        groups_before,
        group_count,
    }
}

// Returns whether no turn is left.
fn is_spent(max: Option<u32>) -> bool
    ensures spent { result ≡ is_spent max }
{
    match max {
        None => false,
        Some(n) => n == 0,
    }
}

// Adds one more turn, with at most so many after it.
fn push_more<'p>(
    frames: &mut Vec<Frame<'p>>,
    turns: Turns,
    left: usize,
    body: &'p Tree,
    ahead: bool,
    tasks: Vec<Task<'p>>,
    place: usize,
    mut captures: Vec<Option<Span>>,
    s: &[char],
) -> Result<(), OutOfMemory>
    ensures pushed { IfOk result (λ _. Adds s.now frames.old.items frames.new.items tasks.entry.items (more_trace (visited body.now ahead s.now) left turns (state place captures.items))) }
{
    clear(&mut captures, turns.groups_before, turns.group_count);
    let enter = Task::Enter(body, ahead);
    let turned = Task::Turned(turns, left, body, ahead, place);
    push_two(frames, tasks, enter, turned, place, captures, s)?;
    Ok(())
}

// Adds one more turn and none, in the order that the quantifier wants.
fn push_choice<'p>(
    alloc: Global,
    frames: &mut Vec<Frame<'p>>,
    turns: Turns,
    left: usize,
    body: &'p Tree,
    ahead: bool,
    tasks: Vec<Task<'p>>,
    place: usize,
    captures: Vec<Option<Span>>,
    s: &[char],
) -> Result<(), OutOfMemory>
    requires free { turns.min ≡ 0 }
    ensures pushed { IfOk result (λ _. Adds s.now frames.old.items frames.new.items tasks.entry.items (ordered_trace turns (more_trace (visited body.now ahead s.now) left turns (state place captures.items)) (state place captures.items))) }
{
    let other_tasks = copy_tasks(alloc, &tasks)?;
    let other_captures = copy_captures(alloc, &captures)?;
    if turns.greedy {
        push_frame(frames, other_tasks, place, other_captures, s)?;
        push_more(frames, turns, left, body, ahead, tasks, place, captures, s)?;
        return Ok(());
    }
    push_more(
        frames,
        turns,
        left,
        body,
        ahead,
        other_tasks,
        place,
        other_captures,
        s,
    )?;
    push_frame(frames, tasks, place, captures, s)?;
    Ok(())
}

/// Adds at most so many turns of a node.
pub fn push_turns<'p>(
    alloc: Global,
    frames: &mut Vec<Frame<'p>>,
    turns: Turns,
    left: usize,
    body: &'p Tree,
    ahead: bool,
    tasks: Vec<Task<'p>>,
    place: usize,
    captures: Vec<Option<Span>>,
    s: &[char],
) -> Result<(), OutOfMemory>
    ensures pushed { IfOk result (λ _. Adds s.now frames.old.items frames.new.items tasks.entry.items (repeated_trace (visited body.now ahead s.now) left turns (state place captures.items))) }
{
    if left == 0 || is_spent(turns.max) {
        push_frame(frames, tasks, place, captures, s)?;
        return Ok(());
    }
    if turns.min == 0 {
        push_choice(
            alloc,
            frames,
            turns,
            left - 1,
            body,
            ahead,
            tasks,
            place,
            captures,
            s,
        )?;
        return Ok(());
    }
    push_more(
        frames,
        turns,
        left - 1,
        body,
        ahead,
        tasks,
        place,
        captures,
        s,
    )?;
    Ok(())
}

/// Adds at most so many more turns of a node, after a turn from a place.
pub fn push_turned<'p>(
    alloc: Global,
    frames: &mut Vec<Frame<'p>>,
    turns: Turns,
    left: usize,
    body: &'p Tree,
    ahead: bool,
    from: usize,
    tasks: Vec<Task<'p>>,
    place: usize,
    captures: Vec<Option<Span>>,
    s: &[char],
) -> Result<(), OutOfMemory>
    ensures pushed { IfOk result (λ _. Adds s.now frames.old.items frames.new.items tasks.entry.items (turned_trace (visited body.now ahead s.now) left turns from (state place captures.items))) }
{
    if turns.min == 0 && place == from {
        return Ok(());
    }
    push_turns(
        alloc,
        frames,
        fewer(turns),
        left,
        body,
        ahead,
        tasks,
        place,
        captures,
        s,
    )?;
    Ok(())
}
