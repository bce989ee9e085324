//! Assertions that stand at a position.
ghost use Rattle.std.specs.Prelude.{◌≡◌, not, true, false, IfOk};
ghost use Rattle.pattern_trees.specs.Nodes.{node_of, Pair};
ghost use Rattle.pattern_reader.specs.Edges as spec;

use pattern_characters::{Flags, Letter, Member, member_tree};
use pattern_trees::{Edge, Look, Tree};
use std::alloc::{AllocError, Global};

// Returns the pattern of a character of `\w` on one side, or of none there.
fn side(alloc: Global, flags: Flags, ahead: bool, wanted: bool) -> Result<Tree, AllocError>
    ensures side { IfOk result (λ t. node_of t ≡ spec.side flags ahead wanted) }
{
    let tree = member_tree(alloc, flags, Member::Of(Letter::Words, false))?;
    let tree = Box::new(alloc, tree)?;
    Ok(Tree::Around(Look { ahead, wanted }, tree))
}

// Returns the pattern of what stands before the position and after it.
fn sides(alloc: Global, flags: Flags, before: bool, after: bool) -> Result<Tree, AllocError>
    ensures sides { IfOk result (λ t. node_of t ≡ Pair (spec.side flags false before) (spec.side flags true after)) }
{
    let before = side(alloc, flags, false, before)?;
    let after = side(alloc, flags, true, after)?;
    let before = Box::new(alloc, before)?;
    let after = Box::new(alloc, after)?;
    Ok(Tree::Pair(before, after))
}

// Returns the pattern of the edge of a word, or of a position that is none.
fn word_edge(alloc: Global, flags: Flags, wanted: bool) -> Result<Tree, AllocError>
    ensures edge { IfOk result (λ t. node_of t ≡ spec.word_edge flags wanted) }
{
    let one = sides(alloc, flags, true, !wanted)?;
    let other = sides(alloc, flags, false, wanted)?;
    let one = Box::new(alloc, one)?;
    let other = Box::new(alloc, other)?;
    Ok(Tree::Choice(one, other))
}

// Returns the pattern of an assertion.
pub(crate) fn edge_tree(alloc: Global, flags: Flags, edge: Edge) -> Result<Tree, AllocError>
    ensures edge { IfOk result (λ t. node_of t ≡ spec.edge_node flags edge) }
{
    match edge {
        Edge::WordEdge if flags.ignore_case => Ok(word_edge(alloc, flags, true)?),
        Edge::NoWordEdge if flags.ignore_case => Ok(word_edge(alloc, flags, false)?),
        _ => Ok(Tree::At(edge)),
    }
}
