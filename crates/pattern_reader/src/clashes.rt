//! Groups of one name that may both take part in a match.
ghost use Rattle.std.specs.Prelude.{◌≡◌, ◌&&◌, not};
ghost use Rattle.pattern_trees.specs.Nodes.{node_of};
ghost use Rattle.pattern_reader.specs.Groups.{name_of, names_of};
ghost use Rattle.pattern_reader.specs.Reading as spec;

use crate::groups::{GroupName, is_named};
use pattern_trees::Tree;

// Returns whether a tree has the group of a number.
fn has_group(k: usize, tree: &Tree) -> bool
    ensures has { result ≡ spec.has_group k (node_of tree.now) }
{
    match tree {
        Tree::Nothing => false,
        Tree::OneOf(_) => false,
        Tree::At(_) => false,
        Tree::Reference(_) => false,
        Tree::Group(j, a) => {
            if *j == k {
                return true;
            }
            has_group(k, a)
        }
        Tree::Around(_, a) => has_group(k, a),
        Tree::Times(_, a) => has_group(k, a),
        Tree::Pair(a, b) => {
            if has_group(k, a) {
                return true;
            }
            has_group(k, b)
        }
        Tree::Choice(a, b) => {
            if has_group(k, a) {
                return true;
            }
            has_group(k, b)
        }
    }
}

// Returns whether each of two trees has one of two groups.
fn divide(k: usize, j: usize, a: &Tree, b: &Tree) -> bool
    ensures divide { result ≡ spec.divide k j (node_of a.now) (node_of b.now) }
{
    (has_group(k, a) && has_group(j, b)) || (has_group(j, a) && has_group(k, b))
}

// Returns whether two groups are in two alternatives of a disjunction.
fn apart(k: usize, j: usize, tree: &Tree) -> bool
    ensures apart { result ≡ spec.apart k j (node_of tree.now) }
{
    match tree {
        Tree::Nothing => false,
        Tree::OneOf(_) => false,
        Tree::At(_) => false,
        Tree::Reference(_) => false,
        Tree::Group(_, a) => apart(k, j, a),
        Tree::Around(_, a) => apart(k, j, a),
        Tree::Times(_, a) => apart(k, j, a),
        Tree::Pair(a, b) => {
            if apart(k, j, a) {
                return true;
            }
            apart(k, j, b)
        }
        Tree::Choice(a, b) => {
            if divide(k, j, a, b) {
                return true;
            }
            if apart(k, j, a) {
                return true;
            }
            apart(k, j, b)
        }
    }
}

// Returns whether two groups have one name.
fn is_same_name(one: &GroupName, other: &GroupName) -> bool
    ensures same { result ≡ spec.is_same_name (name_of one.now) (name_of other.now) }
{
    match &one.name {
        Some(name) => is_named(name.as_slice(), other),
        None => false,
    }
}

// Returns whether two groups of one name may both take part in a match.
fn may_meet(one: &GroupName, other: &GroupName, k: u32, j: u32, tree: &Tree) -> bool
    ensures meet { result ≡ (spec.is_same_name (name_of one.now) (name_of other.now) && not (spec.apart k j (node_of tree.now))) }
{
    is_same_name(one, other) && !apart(k as usize, j as usize, tree)
}

// Returns whether a group has the name of a further one that may take part with it.
#[tactic(auto, unfolding(crate::specs::Reading::clash_with))]
fn clash_with(one: &GroupName, k: u32, tree: &Tree, from: u32, names: &[GroupName]) -> bool
    ensures clash { result ≡ spec.clash_with (name_of one.now) k (node_of tree.now) from (names_of names.now) }
{
    let mut j = from;
    let mut rest = names;
    loop {
        let [other, left @ ..] = rest else {
            return false;
        };
        if may_meet(one, other, k, j, tree) {
            return true;
        }
        j = j.saturating_add(1);
        rest = left;
    }
}

// Returns whether two groups of one name may both take part in a match.
#[tactic(auto, unfolding(crate::specs::Reading::clash))]
pub(crate) fn clash(tree: &Tree, names: &[GroupName]) -> bool
    ensures clash { result ≡ spec.clash 0 (node_of tree.now) (names_of names.now) }
{
    let mut k = 0u32;
    let mut rest = names;
    loop {
        let [one, left @ ..] = rest else {
            return false;
        };
        if clash_with(one, k, tree, k.saturating_add(1), left) {
            return true;
        }
        k = k.saturating_add(1);
        rest = left;
    }
}
