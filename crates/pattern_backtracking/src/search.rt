//! The search for a match (ECMA-262, 22.2.7.2), from each place of a text on.
ghost use Rattle.std.specs.Prelude.{◌≡◌, ◌≢◌, ◌≤◌, IfOk, IfSome, None, true};
ghost use Rattle.std.proofs.Common.{replicate};
ghost use Rattle.pattern_trees.specs.Matching.{found, nothing_captured};
ghost use Rattle.pattern_trees.specs.Nodes.{node_of};
ghost use Rattle.pattern_backtracking.specs.Counting.{decided, needed_in_all, whole_trace, within};
ghost use Rattle.pattern_backtracking.specs.Piles.{Says};

use crate::frames::First;
use crate::machine::first_result;
use crate::memory::OutOfMemory;
use pattern_trees::{Span, Tree};
use std::alloc::Global;

// Returns the captures before a search.
fn no_captures(alloc: Global, groups: usize) -> Result<Vec<Option<Span>>, OutOfMemory>
    ensures none { IfOk result (λ v. v.items ≡ replicate groups None) }
{
    vec![in alloc; None; groups]
}

// Returns the first result from a place on, unless the steps run out.
fn search_at(
    alloc: Global,
    tree: &Tree,
    groups: usize,
    s: &[char],
    place: usize,
    steps: &mut u64,
) -> Result<First, OutOfMemory>
    ensures says { IfOk result (λ first. Says first steps.new (within steps.old (whole_trace (node_of tree.now) true s.now (nothing_captured groups place)))) }
{
    let captures = no_captures(alloc, groups)?;
    first_result(alloc, tree, true, place, captures, s, steps)
}

// Returns whether there is a match, unless the steps run out.
fn count_down(
    alloc: Global,
    tree: &Tree,
    groups: usize,
    s: &[char],
    limit: u64,
) -> Result<Option<bool>, OutOfMemory>
    ensures decided { IfOk result (λ o. o ≡ decided (node_of tree.now) groups s.now limit) }
{
    let mut steps = limit;
    for place in 0..s.len() + 1 {
        match search_at(alloc, tree, groups, s, place, &mut steps)? {
            First::Found(_) => return Ok(Some(true)),
            First::Limit => return Ok(None),
            First::Missing => {}
        }
    }
    Ok(Some(false))
}

/// Returns whether a pattern matches somewhere in a text, unless more than so many steps are needed.
///
/// The pattern has so many groups.
///
/// # Errors
///
/// Fails only if memory cannot be allocated.
pub fn find_within(
    alloc: Global,
    tree: &Tree,
    groups: usize,
    s: &[char],
    limit: u64,
) -> Result<Option<bool>, OutOfMemory>
    ensures decided { IfOk result (λ o. o ≡ decided (node_of tree.now) groups s.now limit) }
    ensures right { IfOk result (λ o. IfSome o (λ b. b ≡ found (node_of tree.now) groups s.now)) }
    ensures enough { IfOk result (λ o. needed_in_all (node_of tree.now) groups s.now ≤ limit → o ≢ None) }
{
    let found = count_down(alloc, tree, groups, s, limit)?;
    Ok(found)
}
