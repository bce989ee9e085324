//! Whether a pattern has no back reference.
ghost use Rattle.std.specs.Prelude.{◌≡◌};
ghost use Rattle.pattern_trees.specs.Nodes.{node_of};
ghost use Rattle.pattern_matcher.specs.PatternMatching.{is_in_order, is_plain};

use pattern_trees::{Tree, Turns};

fn is_in_order(turns: Turns) -> bool
    ensures order { result ≡ is_in_order turns.min turns.max }
{
    match turns.max {
        None => true,
        Some(most) => turns.min <= most,
    }
}

/// Returns whether a pattern has no back reference.
///
/// The two numbers of each quantifier are in order, too.
pub fn is_plain(tree: &Tree) -> bool
    ensures plain { result ≡ is_plain (node_of tree.now) }
{
    match tree {
        Tree::Nothing => true,
        Tree::OneOf(_) => true,
        Tree::At(_) => true,
        Tree::Reference(_) => false,
        Tree::Group(_, body) => is_plain(body),
        Tree::Around(_, body) => is_plain(body),
        Tree::Times(turns, body) => is_in_order(*turns) && is_plain(body),
        Tree::Pair(first, second) => is_plain(first) && is_plain(second),
        Tree::Choice(left, right) => is_plain(left) && is_plain(right),
    }
}
