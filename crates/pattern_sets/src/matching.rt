//! Whether a pattern matches somewhere in a text.
ghost use Rattle.std.specs.Prelude.{◌≡◌, ◌<◌, ◌≤◌, ◌+◌, ◌-◌, ◌/◌, ◌^◌, ℕ, IfOk, Some, None, length, true, false};
ghost use Rattle.pattern_trees.specs.Nodes.{node_of};
ghost use Rattle.pattern_trees.specs.Patterns.{IsFound};
ghost use Rattle.pattern_trees.specs.Trees.{pattern_of};

use crate::row_steps::OutOfMemory;
use crate::row_walks::walk;
use crate::word_walks::word_matches;
use pattern_rows::Row;
use pattern_trees::Tree;
use std::alloc::{AllocError, Global};

/// Returns whether a pattern matches somewhere in a text.
///
/// # Errors
///
/// Fails only if memory cannot be allocated. A text of at most 63 characters takes none.
pub fn matches(alloc: Global, tree: &Tree, text: &[char]) -> Result<bool, OutOfMemory>
    ensures yes { IfOk result (λ b. b ≡ true → IsFound (pattern_of (node_of tree.now)) text.now) }
    ensures no { IfOk result (λ b. b ≡ false → ¬ (IsFound (pattern_of (node_of tree.now)) text.now)) }
{
    if text.len() < 64 {
        return Ok(word_matches(tree, text));
    }
    row_matches(alloc, tree, text)
}

/// Returns the same by rows, however short the text is.
///
/// # Errors
///
/// Fails only if memory cannot be allocated.
pub fn row_matches(alloc: Global, tree: &Tree, text: &[char]) -> Result<bool, OutOfMemory>
    ensures yes { IfOk result (λ b. b ≡ true → IsFound (pattern_of (node_of tree.now)) text.now) }
    ensures no { IfOk result (λ b. b ≡ false → ¬ (IsFound (pattern_of (node_of tree.now)) text.now)) }
{
    if text.len() >= 1 << 60 {
        return Err(AllocError {});
    }
    let all = Row::full(alloc, text.len())?;
    let found = walk(alloc, tree, text, true, all)?;
    Ok(!found.is_empty())
}
