//! Reads a text as a pattern.
ghost use Rattle.std.specs.Prelude.{◌≡◌, true, false, IfOk, Ok};
ghost use Rattle.pattern_trees.specs.Nodes.{node_of};
ghost use Rattle.pattern_trees.specs.Trees.{IsPlain};
ghost use Rattle.pattern_trees.specs.Patterns.{IsWithin};
ghost use Rattle.pattern_characters.specs.Characters.{seen};
ghost use Rattle.pattern_reader.specs.Groups.{names_of};
ghost use Rattle.pattern_reader.specs.Outcomes.{reading_of};
ghost use Rattle.pattern_reader.specs.Reading as spec;
ghost use Rattle.pattern_reader.specs.Views.{state_of};

use crate::clashes::clash;
use crate::errors::{ReadError, Refusal};
use crate::groups::{GroupName, groups_of, has_names};
use crate::states::{State, body};
use crate::steps::read_all;
use pattern_characters::{Fault, Grammar, OutOfMemory};
use pattern_trees::{Tree, Turns};
use std::alloc::{AllocError, Global};

/// A pattern that was read.
#[derive(Drop)]
pub struct Pattern {
    /// What it is.
    pub tree: Tree,
    /// The number of its groups.
    pub groups: u32,
    /// Whether it has a back reference.
    pub has_reference: bool,
}

// Returns whether the numbers of a quantifier are in order.
fn are_in_order(turns: Turns) -> bool
    ensures order { result ≡ true → IsWithin turns.min turns.max }
{
    match turns.max {
        Some(max) => turns.min <= max,
        None => true,
    }
}

// Returns whether a pattern has no back reference.
fn is_plain(tree: &Tree) -> bool
    ensures plain { result ≡ true → IsPlain (node_of tree.now) }
{
    match tree {
        Tree::Nothing => true,
        Tree::OneOf(_) => true,
        Tree::At(_) => true,
        Tree::Reference(_) => false,
        Tree::Group(_, a) => is_plain(a),
        Tree::Around(_, a) => is_plain(a),
        Tree::Times(turns, a) => {
            if !are_in_order(*turns) {
                return false;
            }
            is_plain(a)
        }
        Tree::Pair(a, b) => {
            if !is_plain(a) {
                return false;
            }
            is_plain(b)
        }
        Tree::Choice(a, b) => {
            if !is_plain(a) {
                return false;
            }
            is_plain(b)
        }
    }
}

// Returns a pattern of a tree.
fn as_pattern(tree: Tree, groups: u32) -> Pattern
    ensures tree { result.tree ≡ tree }
    ensures groups { result.groups ≡ groups }
    ensures plain { result.has_reference ≡ false → IsPlain (node_of tree) }
{
    if is_plain(&tree) {
        return Pattern {
            tree,
            groups,
            has_reference: false,
        };
    }
    Pattern {
        tree,
        groups,
        has_reference: true,
    }
}

// Returns what the state at the end stands for.
fn finished(
    alloc: Global,
    names: &[GroupName],
    state: State,
) -> Result<Result<Pattern, Refusal>, AllocError>
    ensures finished { IfOk result (λ r. seen reading_of r ≡ spec.finished (names_of names.now) (Ok (state_of state))) }
    ensures plain { IfOk result (λ r. IfOk r (λ p. p.has_reference ≡ false → IsPlain (node_of p.tree))) }
{
    let State {
        top,
        around: _,
        groups,
    } = state;
    let tree = body(alloc, top)?;
    if clash(&tree, names) {
        return Ok(Err(Refusal {
            fault: Fault::SameName,
            left: 0,
        }));
    }
    Ok(Ok(as_pattern(tree, groups)))
}

// Returns the grammar for a text with these groups.
#[tactic(auto, using(crate::proofs::Lasts::names_length))]
fn grammar_for(strict: bool, extended: bool, names: &[GroupName]) -> Grammar
    ensures grammar { result ≡ spec.grammar strict extended (names_of names.now) }
{
    Grammar {
        strict,
        extended,
        named: has_names(names),
        groups: names.len(),
    }
}

// Reads a text by one of the grammars.
#[tactic(auto, unfolding(crate::specs::Reading::read_by))]
fn read_by(
    alloc: Global,
    strict: bool,
    extended: bool,
    text: &[char],
) -> Result<Result<Pattern, Refusal>, AllocError>
    ensures read { IfOk result (λ r. seen reading_of r ≡ spec.read_by strict extended text.now) }
    ensures plain { IfOk result (λ r. IfOk r (λ p. p.has_reference ≡ false → IsPlain (node_of p.tree))) }
{
    let names = groups_of(alloc, extended, text)?;
    let names = names.as_slice();
    match read_all(alloc, grammar_for(strict, extended, names), names, text)? {
        Ok(state) => Ok(finished(alloc, names, state)?),
        Err(refusal) => Ok(Err(refusal)),
    }
}

/// Reads a text as a pattern.
///
/// The text is read by the grammar with the flag u, or else by the older one. A text of neither is
/// refused, for what is wrong by the older one.
///
/// # Errors
///
/// Fails if memory cannot be allocated.
#[tactic(auto, unfolding(crate::specs::Reading::read))]
pub fn read(alloc: Global, text: &[char]) -> Result<Result<Pattern, ReadError>, OutOfMemory>
    ensures read { IfOk result (λ r. seen reading_of r ≡ spec.located text.now (spec.read text.now)) }
    ensures plain { IfOk result (λ r. IfOk r (λ p. p.has_reference ≡ false → IsPlain (node_of p.tree))) }
{
    if let Ok(pattern) = read_by(alloc, true, true, text)? {
        return Ok(Ok(pattern));
    }
    match read_by(alloc, false, true, text)? {
        Ok(pattern) => Ok(Ok(pattern)),
        Err(refusal) => Ok(Err(ReadError {
            fault: refusal.fault,
            position: text.len().saturating_sub(refusal.left),
        })),
    }
}
