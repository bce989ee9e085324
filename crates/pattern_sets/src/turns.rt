//! How often a body is repeated, and whether it may take nothing.
ghost use Rattle.std.specs.Prelude.{◌≡◌, ◌<◌, ◌+◌, ◌-◌, ◌^◌, IfSome, None, option_map, true};
ghost use Rattle.pattern_trees.specs.Patterns.{One, Repeat};
ghost use Rattle.pattern_sets.specs.Images.{MatchesEmpty, most_within};
ghost use Rattle.pattern_trees.specs.Nodes.{node_of};
ghost use Rattle.pattern_trees.specs.Trees.{pattern_of};

use pattern_trees::{CharSet, Tree, Turns};

/// Returns how many turns may follow the least number of them, if there is a greatest number.
pub fn more_turns(turns: &Turns) -> Option<u32>
    ensures more { result ≡ option_map (λ most. most - turns.now.min) turns.now.max }
{
    match turns.max {
        None => None,
        Some(most) => Some(most.saturating_sub(turns.min)),
    }
}

/// Returns how many turns there are at most, in a text where no run is longer than this.
pub fn most_turns(least: u32, more: Option<u32>, longest: usize) -> usize
    requires short { longest < 2 ^ 60 }
    ensures most { result ≡ least + most_within longest more }
{
    match more {
        None => least as usize + longest,
        Some(more) => least as usize + more as usize,
    }
}

/// Returns the set of a pattern that takes one character.
pub fn one_of(tree: &Tree) -> Option<&CharSet>
    ensures one { IfSome result (λ s. pattern_of (node_of tree.now) ≡ One s.now.spans.items) }
{
    match tree {
        Tree::OneOf(set) => Some(set),
        _ => None,
    }
}

/// Returns the set of a pattern that takes any number of characters.
pub fn any_of(tree: &Tree) -> Option<&CharSet>
    ensures any { IfSome result (λ s. pattern_of (node_of tree.now) ≡ Repeat 0 None (One s.now.spans.items)) }
{
    match tree {
        Tree::Times(turns, body) if turns.min == 0 && turns.max.is_none() => one_of(body),
        _ => None,
    }
}

/// Returns whether a pattern is known to match the empty text at each position.
pub fn matches_empty(tree: &Tree) -> bool
    ensures empty { result ≡ true → MatchesEmpty (pattern_of (node_of tree.now)) }
{
    match tree {
        Tree::Nothing => true,
        Tree::OneOf(_) => false,
        Tree::At(_) => false,
        Tree::Reference(_) => false,
        Tree::Around(_, _) => false,
        Tree::Group(_, body) => matches_empty(body),
        Tree::Times(turns, body) => turns.min == 0 || matches_empty(body),
        Tree::Pair(a, b) => matches_empty(a) && matches_empty(b),
        Tree::Choice(a, b) => matches_empty(a) || matches_empty(b),
    }
}
