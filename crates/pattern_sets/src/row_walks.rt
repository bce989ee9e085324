//! Where a pattern leads from a row of positions.
ghost use Rattle.std.specs.Prelude.{◌≡◌, ◌<◌, ◌≤◌, ◌+◌, ◌-◌, ◌/◌, ◌^◌, ℕ, IfOk, Some, None, length, true, false};
ghost use Rattle.pattern_trees.specs.Nodes.{node_of};
ghost use Rattle.pattern_trees.specs.Patterns.{Either, Iterates, Look, Repeat};
ghost use Rattle.pattern_trees.specs.Trees.{pattern_of};
ghost use Rattle.pattern_rows.specs.Rows.{has, width};
ghost use Rattle.pattern_sets.specs.Images.{IsOne, Joined, Leaves, Spreads, Steps, Walks, leads};

use crate::row_steps::{OutOfMemory, keep_edges, run_back, step_back, step_on, times_on};
use crate::turns::{matches_empty, more_turns};
use pattern_rows::Row;
use pattern_trees::Tree;
use std::alloc::Global;

/// Returns where a pattern leads from a set of positions of a text.
///
/// It leads on, from left to right, or back.
///
/// # Errors
///
/// Fails only if memory cannot be allocated.
#[cycle(walk)]
pub fn walk(
    alloc: Global,
    tree: &Tree,
    text: &[char],
    forward: bool,
    from: Row,
) -> Result<Row, OutOfMemory>
    requires sized { width from ≡ length text.now / 64 }
    requires short { length text.now < 2 ^ 60 }
    ensures walks { IfOk result (Walks forward (pattern_of (node_of tree.now)) text.now from) }
{
    if from.is_empty() {
        return Ok(from);
    }
    Ok(lead(alloc, tree, text, forward, from)?)
}

// Returns the same, of a set that is likely not empty.
#[cycle(walk)]
fn lead(
    alloc: Global,
    tree: &Tree,
    text: &[char],
    forward: bool,
    from: Row,
) -> Result<Row, OutOfMemory>
    requires sized { width from ≡ length text.now / 64 }
    requires short { length text.now < 2 ^ 60 }
    ensures walks { IfOk result (Walks forward (pattern_of (node_of tree.now)) text.now from) }
{
    match tree {
        Tree::Nothing => Ok(from),
        Tree::OneOf(set) => {
            if forward {
                step_on(alloc, set, text, &from)
            } else {
                step_back(alloc, set, text, &from)
            }
        }
        Tree::Pair(a, b) => {
            if forward {
                walk_both(alloc, a, b, text, forward, from)
            } else {
                walk_both(alloc, b, a, text, forward, from)
            }
        }
        Tree::Choice(a, b) => walk_choice(alloc, a, b, text, forward, from),
        Tree::Times(turns, body) => walk_times(
            alloc,
            turns.min,
            more_turns(turns),
            body,
            text,
            forward,
            from,
        ),
        Tree::At(edge) => keep_edges(alloc, *edge, text, forward, &from),
        Tree::Reference(_) => Row::empty(alloc, text.len()),
        Tree::Group(_, body) => walk(alloc, body, text, forward, from),
        Tree::Around(look, body) => walk_look(
            alloc,
            look.ahead,
            look.wanted,
            body,
            text,
            forward,
            from,
        ),
    }
}

// Returns where one pattern leads, and then another.
#[cycle(walk)]
fn walk_both(
    alloc: Global,
    a: &Tree,
    b: &Tree,
    text: &[char],
    forward: bool,
    from: Row,
) -> Result<Row, OutOfMemory>
    requires sized { width from ≡ length text.now / 64 }
    requires short { length text.now < 2 ^ 60 }
    ensures leaves { IfOk result (Leaves (Joined (leads forward (pattern_of (node_of a.now)) text.now) (leads forward (pattern_of (node_of b.now)) text.now)) from) }
{
    let mid = walk(alloc, a, text, forward, from)?;
    Ok(walk(alloc, b, text, forward, mid)?)
}

// Returns where one of two patterns leads.
#[cycle(walk)]
fn walk_choice(
    alloc: Global,
    a: &Tree,
    b: &Tree,
    text: &[char],
    forward: bool,
    from: Row,
) -> Result<Row, OutOfMemory>
    requires sized { width from ≡ length text.now / 64 }
    requires short { length text.now < 2 ^ 60 }
    ensures walks { IfOk result (Walks forward (Either (pattern_of (node_of a.now)) (pattern_of (node_of b.now))) text.now from) }
{
    let other = from.copy()?;
    let mut left = walk(alloc, a, text, forward, from)?;
    let right = walk(alloc, b, text, forward, other)?;
    left.unite(&right);
    Ok(left)
}

// Returns whether a row has at most one position.
fn is_one(row: &Row) -> bool
    requires small { width row.now < 2 ^ 57 }
    ensures one { result ≡ true → IsOne (has row.now) }
{
    match row.next(0) {
        None => true,
        Some(m) => match row.next(m + 1) {
            None => true,
            Some(_) => false,
        },
    }
}

// Returns the one position of a row, if a lookaround holds there.
//
// Its body is walked from there, the way that it looks.
#[cycle(walk)]
fn walk_peek(
    alloc: Global,
    ahead: bool,
    wanted: bool,
    body: &Tree,
    text: &[char],
    forward: bool,
    from: Row,
) -> Result<Row, OutOfMemory>
    requires sized { width from ≡ length text.now / 64 }
    requires short { length text.now < 2 ^ 60 }
    ensures walks { IfOk result (λ to. IsOne (has from) → Walks forward (Look ahead wanted (pattern_of (node_of body.now))) text.now from to) }
{
    let mut near = walk(alloc, body, text, ahead, from.copy()?)?;
    let all = Row::full(alloc, text.len())?;
    let none = Row::empty(alloc, text.len())?;
    near.meet(&all);
    if near.is_empty() {
        if wanted { Ok(none) } else { Ok(from) }
    } else {
        if wanted { Ok(from) } else { Ok(none) }
    }
}

// Returns the positions where a lookaround holds.
#[cycle(walk)]
fn walk_look(
    alloc: Global,
    ahead: bool,
    wanted: bool,
    body: &Tree,
    text: &[char],
    forward: bool,
    mut from: Row,
) -> Result<Row, OutOfMemory>
    requires sized { width from ≡ length text.now / 64 }
    requires short { length text.now < 2 ^ 60 }
    ensures walks { IfOk result (Walks forward (Look ahead wanted (pattern_of (node_of body.now))) text.now from) }
{
    if is_one(&from) {
        return Ok(walk_peek(alloc, ahead, wanted, body, text, forward, from)?);
    }
    let all = Row::full(alloc, text.len())?;
    let found = walk(alloc, body, text, !ahead, all)?;
    if wanted {
        from.meet(&found);
    } else {
        from.remove(&found);
    }
    Ok(from)
}

// Returns where a repetition leads.
#[cycle(walk)]
fn walk_times(
    alloc: Global,
    least: u32,
    more: Option<u32>,
    body: &Tree,
    text: &[char],
    forward: bool,
    from: Row,
) -> Result<Row, OutOfMemory>
    requires sized { width from ≡ length text.now / 64 }
    requires short { length text.now < 2 ^ 60 }
    ensures walks { IfOk result (Walks forward (Repeat least more (pattern_of (node_of body.now))) text.now from) }
{
    match body {
        Tree::OneOf(set) if forward => times_on(alloc, set, text, least, more, &from),
        _ => walk_turns(alloc, least, more, body, text, forward, from),
    }
}

// Returns the same, turn by turn.
#[cycle(walk)]
fn walk_turns(
    alloc: Global,
    least: u32,
    more: Option<u32>,
    body: &Tree,
    text: &[char],
    forward: bool,
    from: Row,
) -> Result<Row, OutOfMemory>
    requires sized { width from ≡ length text.now / 64 }
    requires short { length text.now < 2 ^ 60 }
    ensures walks { IfOk result (Walks forward (Repeat least more (pattern_of (node_of body.now))) text.now from) }
{
    let after = walk_least(alloc, least, body, text, forward, from)?;
    match more {
        None => Ok(walk_any(alloc, body, text, forward, after)?),
        Some(most) => Ok(walk_at_most(alloc, most, body, text, forward, after)?),
    }
}

// Returns where so many steps lead.
//
// If a step may take nothing, so do fewer steps.
#[cycle(walk)]
fn walk_least(
    alloc: Global,
    count: u32,
    body: &Tree,
    text: &[char],
    forward: bool,
    from: Row,
) -> Result<Row, OutOfMemory>
    requires sized { width from ≡ length text.now / 64 }
    requires short { length text.now < 2 ^ 60 }
    ensures leaves { IfOk result (Leaves (Iterates (leads forward (pattern_of (node_of body.now)) text.now) count) from) }
{
    if matches_empty(body) {
        Ok(walk_at_most(alloc, count, body, text, forward, from)?)
    } else {
        Ok(walk_exactly(alloc, count, body, text, forward, from)?)
    }
}

// Returns where so many steps lead.
//
// A set that leads to itself is where all further steps lead.
#[cycle(walk)]
fn walk_exactly(
    alloc: Global,
    count: u32,
    body: &Tree,
    text: &[char],
    forward: bool,
    from: Row,
) -> Result<Row, OutOfMemory>
    requires sized { width from ≡ length text.now / 64 }
    requires short { length text.now < 2 ^ 60 }
    ensures leaves { IfOk result (Leaves (Iterates (leads forward (pattern_of (node_of body.now)) text.now) count) from) }
{
    let mut at = from;
    'rounds: for _round in 0..count {
        let led = walk(alloc, body, text, forward, at.copy()?)?;
        if led.is_same(&at) {
            return Ok(led);
        }
        at = led;
    }
    Ok(at)
}

// Adds the positions of one round of a search, and returns those that are new.
#[cycle(walk)]
fn walk_spread(
    alloc: Global,
    body: &Tree,
    text: &[char],
    forward: bool,
    all: &mut Row,
    fresh: Row,
) -> Result<Row, OutOfMemory>
    requires sized { width fresh ≡ length text.now / 64 }
    requires same { width all.old ≡ length text.now / 64 }
    requires short { length text.now < 2 ^ 60 }
    ensures spreads { IfOk result (λ next. Spreads (leads forward (pattern_of (node_of body.now)) text.now) (has all.old) (has fresh) (has all.new) (has next)) }
    ensures width { IfOk result (λ next. width next ≡ width fresh) }
    ensures all_width { width all.new ≡ width all.old }
{
    let mut next = walk(alloc, body, text, forward, fresh)?;
    next.remove(all);
    all.unite(&next);
    Ok(next)
}

// Returns where any number of steps lead.
#[cycle(walk)]
fn walk_any(
    alloc: Global,
    body: &Tree,
    text: &[char],
    forward: bool,
    from: Row,
) -> Result<Row, OutOfMemory>
    requires sized { width from ≡ length text.now / 64 }
    requires short { length text.now < 2 ^ 60 }
    ensures leaves { IfOk result (Leaves (Steps None (leads forward (pattern_of (node_of body.now)) text.now)) from) }
{
    if !forward {
        if let Tree::OneOf(set) = body {
            return Ok(run_back(set, text, from));
        }
    }
    let mut fresh = from.copy()?;
    let mut all = from;
    'rounds: loop {
        let next = walk_spread(alloc, body, text, forward, &mut all, fresh)?;
        if next.is_empty() {
            return Ok(all);
        }
        fresh = next;
    }
}

// Returns where at most so many steps lead.
#[cycle(walk)]
fn walk_at_most(
    alloc: Global,
    most: u32,
    body: &Tree,
    text: &[char],
    forward: bool,
    from: Row,
) -> Result<Row, OutOfMemory>
    requires sized { width from ≡ length text.now / 64 }
    requires short { length text.now < 2 ^ 60 }
    ensures leaves { IfOk result (Leaves (Steps (Some most) (leads forward (pattern_of (node_of body.now)) text.now)) from) }
{
    let mut fresh = from.copy()?;
    let mut all = from;
    'rounds: for _round in 0..most {
        let next = walk_spread(alloc, body, text, forward, &mut all, fresh)?;
        if next.is_empty() {
            return Ok(all);
        }
        fresh = next;
    }
    Ok(all)
}
