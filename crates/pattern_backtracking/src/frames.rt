//! The pile of frames, from which the machine goes on when it goes back.
ghost use Rattle.std.specs.Prelude.{◌≡◌, ◌∷◌, [], ◌++◌, IfOk};
ghost use Rattle.pattern_backtracking.specs.Counting.{after, gives, step, stepping, then_gives};
ghost use Rattle.pattern_backtracking.specs.Piles.{Adds, done, is_limit, state};

use crate::memory::OutOfMemory;
use pattern_trees::{Span, Tree, Turns};
use std::alloc::Global;

/// What is still to be done.
#[derive(Clone, Copy)]
pub enum Task<'p> {
    /// A node, ahead or back.
    Enter(&'p Tree, bool),
    /// At most so many more turns of a node, ahead or back, after a turn from a place.
    Turned(Turns, usize, &'p Tree, bool, usize),
    /// The end of a group, ahead or back, from a place.
    Close(usize, bool, usize),
}

/// A way that is still to be tried: a state, and the tasks from there on, the last one first.
#[derive(Drop)]
pub struct Frame<'p> {
    pub tasks: Vec<Task<'p>>,
    pub place: usize,
    pub captures: Vec<Option<Span>>,
}

/// How a search ended.
#[derive(Drop)]
pub enum First {
    /// With a result, which captured this.
    Found(Vec<Option<Span>>),
    /// With no result.
    Missing,
    /// At the limit on steps.
    Limit,
}

impl First {
    /// Returns whether the search ended at the limit.
    pub fn is_limit(&self) -> bool
        ensures limit { result ≡ is_limit self.now }
    {
        match self {
            First::Found(_) => false,
            First::Missing => false,
            First::Limit => true,
        }
    }
}

/// Adds a frame.
pub fn push_frame<'p>(
    frames: &mut Vec<Frame<'p>>,
    tasks: Vec<Task<'p>>,
    place: usize,
    captures: Vec<Option<Span>>,
    s: &[char],
) -> Result<(), OutOfMemory>
    ensures pushed { IfOk result (λ _. Adds s.now frames.old.items frames.new.items tasks.entry.items (gives (state place captures.items) ∷ [])) }
{
    frames.push(Frame {
        tasks,
        place,
        captures,
    })?;
    Ok(())
}

/// Adds a frame with one more task.
pub fn push_task<'p>(
    frames: &mut Vec<Frame<'p>>,
    mut tasks: Vec<Task<'p>>,
    task: Task<'p>,
    place: usize,
    captures: Vec<Option<Span>>,
    s: &[char],
) -> Result<(), OutOfMemory>
    ensures pushed { IfOk result (λ _. Adds s.now frames.old.items frames.new.items tasks.entry.items (step ∷ done s.now task.entry (state place captures.items))) }
{
    tasks.push(task)?;
    push_frame(frames, tasks, place, captures, s)?;
    Ok(())
}

/// Adds a frame with two more tasks.
pub fn push_two<'p>(
    frames: &mut Vec<Frame<'p>>,
    mut tasks: Vec<Task<'p>>,
    first: Task<'p>,
    second: Task<'p>,
    place: usize,
    captures: Vec<Option<Span>>,
    s: &[char],
) -> Result<(), OutOfMemory>
    ensures pushed { IfOk result (λ _. Adds s.now frames.old.items frames.new.items tasks.entry.items (after (stepping (done s.now second.entry)) (stepping (done s.now first.entry) (state place captures.items)))) }
{
    tasks.push(second)?;
    push_task(frames, tasks, first, place, captures, s)?;
    Ok(())
}

/// Adds a frame if there is a place to go on from.
pub fn push_at<'p>(
    frames: &mut Vec<Frame<'p>>,
    tasks: Vec<Task<'p>>,
    place: Option<usize>,
    captures: Vec<Option<Span>>,
    s: &[char],
) -> Result<(), OutOfMemory>
    ensures pushed { IfOk result (λ _. Adds s.now frames.old.items frames.new.items tasks.entry.items (then_gives captures.items place)) }
{
    if let Some(place) = place {
        push_frame(frames, tasks, place, captures, s)?;
    }
    Ok(())
}

/// Returns the same tasks.
pub fn copy_tasks<'p>(alloc: Global, tasks: &Vec<Task<'p>>) -> Result<Vec<Task<'p>>, OutOfMemory>
    ensures copied { IfOk result (λ v. v.items ≡ tasks.now.items) }
{
    Vec::from_slice(alloc, tasks)
}

/// Returns the same captures.
pub fn copy_captures(
    alloc: Global,
    captures: &Vec<Option<Span>>,
) -> Result<Vec<Option<Span>>, OutOfMemory>
    ensures copied { IfOk result (λ v. v.items ≡ captures.now.items) }
{
    Vec::from_slice(alloc, captures)
}

/// Adds two frames with one more task each, of which the first comes before the other.
pub fn push_either<'p>(
    alloc: Global,
    frames: &mut Vec<Frame<'p>>,
    one: Task<'p>,
    other: Task<'p>,
    tasks: Vec<Task<'p>>,
    place: usize,
    captures: Vec<Option<Span>>,
    s: &[char],
) -> Result<(), OutOfMemory>
    ensures pushed { IfOk result (λ _. Adds s.now frames.old.items frames.new.items tasks.entry.items (stepping (done s.now one.entry) (state place captures.items) ++ stepping (done s.now other.entry) (state place captures.items))) }
{
    let copied_tasks = copy_tasks(alloc, &tasks)?;
    let copied_captures = copy_captures(alloc, &captures)?;
    push_task(frames, copied_tasks, other, place, copied_captures, s)?;
    push_task(frames, tasks, one, place, captures, s)?;
    Ok(())
}
