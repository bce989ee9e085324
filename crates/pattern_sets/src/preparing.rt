//! Rewrites a pattern into one that matches alike, and is walked faster.
ghost use Rattle.std.specs.Prelude.{◌≡◌, IfOk, IfSome, true};
ghost use Rattle.pattern_trees.specs.Nodes.{Around, Nothing, node_of};
ghost use Rattle.pattern_trees.specs.Patterns.{Either, Then};
ghost use Rattle.pattern_trees.specs.Trees.{pattern_of};
ghost use Rattle.pattern_sets.specs.Alike.{AreAlike, repeat_of};

use crate::folding::folded;
use crate::row_steps::OutOfMemory;
use pattern_trees::{Look, Tree, Turns};
use std::alloc::Global;

// How many items a row has at most. A longer one would make a deep tree.
const LONGEST_ROW: usize = 16;

// How many spans a set of two sets has at most. They need not be in order.
const MOST_SPANS: usize = 16;

/// Returns a pattern that matches alike, and is walked faster.
///
/// It has no groups, two sets of characters beside each other are one set, a repetition of a
/// repetition is one repetition where no number of turns is left out, and a sequence is a row: its
/// first item, and then what follows.
///
/// # Errors
///
/// Fails only if memory cannot be allocated.
#[cycle(prepare)]
pub fn prepare(alloc: Global, tree: &Tree) -> Result<Tree, OutOfMemory>
    ensures alike { IfOk result (λ t. AreAlike (pattern_of (node_of tree.now)) (pattern_of (node_of t))) }
{
    if count_items(tree) <= LONGEST_ROW {
        Ok(before(alloc, tree, Tree::Nothing)?)
    } else {
        Ok(prepare_long(alloc, tree)?)
    }
}

// Returns the same of a long sequence, as a pair of two.
#[cycle(prepare)]
fn prepare_long(alloc: Global, tree: &Tree) -> Result<Tree, OutOfMemory>
    ensures alike { IfOk result (λ t. AreAlike (pattern_of (node_of tree.now)) (pattern_of (node_of t))) }
{
    match tree {
        Tree::Group(_, body) => Ok(prepare(alloc, body)?),
        Tree::Pair(a, b) => {
            let a = prepare(alloc, a)?;
            let b = prepare(alloc, b)?;
            Ok(pair(alloc, a, b)?)
        }
        _ => Ok(before(alloc, tree, Tree::Nothing)?),
    }
}

// Returns the row of a pattern's items and of those that follow.
#[cycle(prepare)]
fn before(alloc: Global, tree: &Tree, rest: Tree) -> Result<Tree, OutOfMemory>
    ensures alike { IfOk result (λ t. AreAlike (Then (pattern_of (node_of tree.now)) (pattern_of (node_of rest))) (pattern_of (node_of t))) }
{
    match tree {
        Tree::Nothing => Ok(rest),
        Tree::OneOf(set) => {
            let set = set.copy()?;
            Ok(pair(alloc, Tree::OneOf(set), rest)?)
        }
        Tree::At(edge) => Ok(pair(alloc, Tree::At(*edge), rest)?),
        Tree::Reference(group) => Ok(pair(alloc, Tree::Reference(*group), rest)?),
        Tree::Group(_, body) => Ok(before(alloc, body, rest)?),
        Tree::Around(look, body) => {
            let body = prepare(alloc, body)?;
            let item = around(alloc, *look, body)?;
            Ok(pair(alloc, item, rest)?)
        }
        Tree::Times(turns, body) => {
            let body = prepare(alloc, body)?;
            let item = times(alloc, *turns, body)?;
            Ok(pair(alloc, item, rest)?)
        }
        Tree::Pair(a, b) => {
            let rest = before(alloc, b, rest)?;
            Ok(before(alloc, a, rest)?)
        }
        Tree::Choice(a, b) => {
            let a = prepare(alloc, a)?;
            let b = prepare(alloc, b)?;
            let item = choice(alloc, a, b)?;
            Ok(pair(alloc, item, rest)?)
        }
    }
}

// Returns how many items a sequence has.
fn count_items(tree: &Tree) -> usize {
    match tree {
        Tree::Group(_, body) => count_items(body),
        Tree::Pair(a, b) => count_items(a).saturating_add(count_items(b)),
        _ => 1,
    }
}

// Returns a lookaround.
fn around(alloc: Global, look: Look, body: Tree) -> Result<Tree, OutOfMemory>
    ensures around { IfOk result (λ t. node_of t ≡ Around look (node_of body)) }
{
    let body = Box::new(alloc, body)?;
    Ok(Tree::Around(look, body))
}

// Returns a repetition of a pattern that may be a repetition itself.
fn times(alloc: Global, turns: Turns, body: Tree) -> Result<Tree, OutOfMemory>
    ensures alike { IfOk result (λ t. AreAlike (repeat_of turns (pattern_of (node_of body))) (pattern_of (node_of t))) }
{
    match body {
        Tree::Times(inner, body) => Ok(times_again(alloc, turns, inner, body)?),
        body => {
            let body = Box::new(alloc, body)?;
            Ok(Tree::Times(turns, body))
        }
    }
}

// Returns a repetition of a repetition.
fn times_again(
    alloc: Global,
    outer: Turns,
    inner: Turns,
    body: Box<Tree>,
) -> Result<Tree, OutOfMemory>
    ensures alike { IfOk result (λ t. AreAlike (repeat_of outer (repeat_of inner (pattern_of (node_of body.value)))) (pattern_of (node_of t))) }
{
    if let Some(turns) = folded(outer, inner) {
        return Ok(Tree::Times(turns, body));
    }
    let body = Box::new(alloc, Tree::Times(inner, body))?;
    Ok(Tree::Times(outer, body))
}

// Returns whether a pattern is the empty one.
fn is_nothing(tree: &Tree) -> bool
    ensures nothing { result ≡ true → node_of tree.now ≡ Nothing }
{
    match tree {
        Tree::Nothing => true,
        _ => false,
    }
}

// Returns one pattern after the other.
fn pair(alloc: Global, first: Tree, rest: Tree) -> Result<Tree, OutOfMemory>
    ensures alike { IfOk result (λ t. AreAlike (Then (pattern_of (node_of first)) (pattern_of (node_of rest))) (pattern_of (node_of t))) }
{
    if is_nothing(&rest) {
        return Ok(first);
    }
    let first = Box::new(alloc, first)?;
    let rest = Box::new(alloc, rest)?;
    Ok(Tree::Pair(first, rest))
}

// Returns the set of two sets of characters, if two patterns are such and it has few spans.
fn one_set(alloc: Global, a: &Tree, b: &Tree) -> Result<Option<Tree>, OutOfMemory>
    ensures alike { IfOk result (λ o. IfSome o (λ t. AreAlike (Either (pattern_of (node_of a.now)) (pattern_of (node_of b.now))) (pattern_of (node_of t)))) }
{
    let Tree::OneOf(x) = a else {
        return Ok(None);
    };
    let Tree::OneOf(y) = b else {
        return Ok(None);
    };
    if x.spans.len().saturating_add(y.spans.len()) > MOST_SPANS {
        return Ok(None);
    }
    let set = x.united(alloc, y)?;
    Ok(Some(Tree::OneOf(set)))
}

// Returns one pattern or the other.
fn choice(alloc: Global, a: Tree, b: Tree) -> Result<Tree, OutOfMemory>
    ensures alike { IfOk result (λ t. AreAlike (Either (pattern_of (node_of a)) (pattern_of (node_of b))) (pattern_of (node_of t))) }
{
    if let Some(set) = one_set(alloc, &a, &b)? {
        return Ok(set);
    }
    let a = Box::new(alloc, a)?;
    let b = Box::new(alloc, b)?;
    Ok(Tree::Choice(a, b))
}
