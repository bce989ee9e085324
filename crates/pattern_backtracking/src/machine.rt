//! The machine, which takes the steps of a search and counts them.
ghost use Rattle.std.specs.Prelude.{◌≡◌, ◌≤◌, ◌∷◌, [], ◌++◌, IfOk};
ghost use Rattle.pattern_trees.specs.Matching.{closed};
ghost use Rattle.pattern_trees.specs.Nodes.{node_of};
ghost use Rattle.pattern_backtracking.specs.Counting.{after, entered, gives, pair_trace, step, whole_trace, within};
ghost use Rattle.pattern_backtracking.specs.Piles.{Adds, Goes, Says, answer, done, pile_trace, state, visited, whole};

use crate::captures::{capture, captured};
use crate::edges::holds_at;
use crate::frames::{
    First, Frame, Task, copy_captures, push_at, push_either, push_frame, push_task, push_two,
};
use crate::memory::OutOfMemory;
use crate::places::{after_char, after_reference, only_if};
use crate::turns::{push_turned, push_turns};
use pattern_trees::{Look, Span, Tree};
use std::alloc::Global;

// Adds the end of a group.
fn push_closed<'p>(
    frames: &mut Vec<Frame<'p>>,
    group: usize,
    ahead: bool,
    from: usize,
    tasks: Vec<Task<'p>>,
    place: usize,
    mut captures: Vec<Option<Span>>,
    s: &[char],
) -> Result<(), OutOfMemory>
    ensures pushed { IfOk result (λ _. Adds s.now frames.old.items frames.new.items tasks.entry.items (gives (closed group ahead from (state place captures.items)) ∷ [])) }
{
    let (start, stop) = if ahead { (from, place) } else { (place, from) };
    capture(&mut captures, group, Span { start, stop });
    push_frame(frames, tasks, place, captures, s)?;
    Ok(())
}

// Adds a group.
fn push_group<'p>(
    frames: &mut Vec<Frame<'p>>,
    group: usize,
    inside: &'p Tree,
    ahead: bool,
    tasks: Vec<Task<'p>>,
    place: usize,
    captures: Vec<Option<Span>>,
    s: &[char],
) -> Result<(), OutOfMemory>
    ensures pushed { IfOk result (λ _. Adds s.now frames.old.items frames.new.items tasks.entry.items (after (λ y. step ∷ gives (closed group ahead place y) ∷ []) (visited inside.now ahead s.now (state place captures.items)))) }
{
    let enter = Task::Enter(inside, ahead);
    let close = Task::Close(group, ahead, place);
    push_two(frames, tasks, enter, close, place, captures, s)?;
    Ok(())
}

// Adds one node after the other.
fn push_pair<'p>(
    frames: &mut Vec<Frame<'p>>,
    one: &'p Tree,
    other: &'p Tree,
    ahead: bool,
    tasks: Vec<Task<'p>>,
    place: usize,
    captures: Vec<Option<Span>>,
    s: &[char],
) -> Result<(), OutOfMemory>
    ensures pushed { IfOk result (λ _. Adds s.now frames.old.items frames.new.items tasks.entry.items (pair_trace (visited one.now ahead s.now) (visited other.now ahead s.now) ahead (state place captures.items))) }
{
    let one = Task::Enter(one, ahead);
    let other = Task::Enter(other, ahead);
    if ahead {
        push_two(frames, tasks, one, other, place, captures, s)?;
        return Ok(());
    }
    push_two(frames, tasks, other, one, place, captures, s)?;
    Ok(())
}

// Adds what a lookaround gives once the search inside has ended.
fn push_around<'p>(
    frames: &mut Vec<Frame<'p>>,
    look: Look,
    first: First,
    tasks: Vec<Task<'p>>,
    place: usize,
    captures: Vec<Option<Span>>,
    s: &[char],
) -> Result<(), OutOfMemory>
    ensures pushed { IfOk result (λ _. Adds s.now frames.old.items frames.new.items tasks.entry.items (answer look (state place captures.items) first)) }
{
    match first {
        First::Limit => Ok(()),
        First::Found(found) => {
            if look.wanted {
                push_frame(frames, tasks, place, found, s)?;
            }
            Ok(())
        }
        First::Missing => {
            if !look.wanted {
                push_frame(frames, tasks, place, captures, s)?;
            }
            Ok(())
        }
    }
}

// Takes the step that enters a node. Returns whether the search goes on.
#[cycle(machine)]
fn enter<'p>(
    alloc: Global,
    frames: &mut Vec<Frame<'p>>,
    node: &'p Tree,
    ahead: bool,
    tasks: Vec<Task<'p>>,
    place: usize,
    captures: Vec<Option<Span>>,
    s: &[char],
    steps: &mut u64,
) -> Result<bool, OutOfMemory>
    ensures goes { IfOk result (λ goes. Goes goes (within steps.old (whole s.now tasks.entry.items (entered (node_of node.now) ahead s.now (state place captures.items)) ++ pile_trace s.now frames.old.items)) (within steps.new (pile_trace s.now frames.new.items))) }
    ensures spent { steps.new ≤ steps.old }
{
    match node {
        Tree::Nothing => {
            push_frame(frames, tasks, place, captures, s)?;
            Ok(true)
        }
        Tree::OneOf(set) => {
            push_at(frames, tasks, after_char(set, ahead, s, place), captures, s)?;
            Ok(true)
        }
        Tree::At(edge) => {
            let holds = holds_at(*edge, s, place);
            push_at(frames, tasks, only_if(holds, place), captures, s)?;
            Ok(true)
        }
        Tree::Reference(group) => {
            let taken = captured(&captures, *group);
            push_at(
                frames,
                tasks,
                after_reference(taken, ahead, s, place),
                captures,
                s,
            )?;
            Ok(true)
        }
        Tree::Group(group, inside) => {
            push_group(frames, *group, inside, ahead, tasks, place, captures, s)?;
            Ok(true)
        }
        Tree::Around(look, inside) => {
            let copied = copy_captures(alloc, &captures)?;
            let found = first_result(alloc, inside, look.ahead, place, copied, s, steps)?;
            if found.is_limit() {
                return Ok(false);
            }
            push_around(frames, *look, found, tasks, place, captures, s)?;
            Ok(true)
        }
        Tree::Times(turns, body) => {
            let left = turns.min as usize + s.len();
            push_turns(
                alloc, frames, *turns, left, body, ahead, tasks, place, captures, s,
            )?;
            Ok(true)
        }
        Tree::Pair(one, other) => {
            push_pair(frames, one, other, ahead, tasks, place, captures, s)?;
            Ok(true)
        }
        Tree::Choice(one, other) => {
            let one = Task::Enter(one, ahead);
            let other = Task::Enter(other, ahead);
            push_either(alloc, frames, one, other, tasks, place, captures, s)?;
            Ok(true)
        }
    }
}

// Takes up a task. Returns whether the search goes on.
#[cycle(machine)]
fn take<'p>(
    alloc: Global,
    frames: &mut Vec<Frame<'p>>,
    task: Task<'p>,
    tasks: Vec<Task<'p>>,
    place: usize,
    captures: Vec<Option<Span>>,
    s: &[char],
    steps: &mut u64,
) -> Result<bool, OutOfMemory>
    ensures goes { IfOk result (λ goes. Goes goes (within steps.old (whole s.now tasks.entry.items (done s.now task.entry (state place captures.items)) ++ pile_trace s.now frames.old.items)) (within steps.new (pile_trace s.now frames.new.items))) }
    ensures spent { steps.new ≤ steps.old }
{
    match task {
        Task::Enter(node, ahead) => {
            enter(alloc, frames, node, ahead, tasks, place, captures, s, steps)
        }
        Task::Turned(turns, left, body, ahead, from) => {
            push_turned(
                alloc, frames, turns, left, body, ahead, from, tasks, place, captures, s,
            )?;
            Ok(true)
        }
        Task::Close(group, ahead, from) => {
            push_closed(frames, group, ahead, from, tasks, place, captures, s)?;
            Ok(true)
        }
    }
}

/// Returns the first result of a node from a state, unless the steps run out.
///
/// # Errors
///
/// Fails only if memory cannot be allocated.
#[cycle(machine)]
pub fn first_result<'p>(
    alloc: Global,
    node: &'p Tree,
    ahead: bool,
    place: usize,
    captures: Vec<Option<Span>>,
    s: &[char],
    steps: &mut u64,
) -> Result<First, OutOfMemory>
    ensures says { IfOk result (λ first. Says first steps.new (within steps.old (whole_trace (node_of node.now) ahead s.now (state place captures.items)))) }
    ensures spent { steps.new ≤ steps.old }
{
    let mut frames = Vec::new(alloc);
    let enter = Task::Enter(node, ahead);
    push_task(&mut frames, Vec::new(alloc), enter, place, captures, s)?;
    while let Some(frame) = frames.pop() {
        if *steps == 0 {
            return Ok(First::Limit);
        }
        *steps -= 1;
        let Frame {
            mut tasks,
            place,
            captures,
        } = frame;
        let Some(task) = tasks.pop() else {
            return Ok(First::Found(captures));
        };
        if !take(alloc, &mut frames, task, tasks, place, captures, s, steps)? {
            return Ok(First::Limit);
        }
    }
    Ok(First::Missing)
}
