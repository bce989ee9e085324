//! Reads a pattern step by step.
ghost use Rattle.std.specs.Prelude.{◌≡◌, ◌∷◌, None, IfOk};
ghost use Rattle.pattern_trees.specs.Nodes.{node_of};
ghost use Rattle.pattern_reader.specs.Groups.{names_of};
ghost use Rattle.pattern_reader.specs.Reading as spec;
ghost use Rattle.pattern_characters.specs.Characters.{number};
ghost use Rattle.pattern_characters.specs.Counts.{braces};
ghost use Rattle.pattern_characters.specs.Sets.{IsMember, member_node};
ghost use Rattle.pattern_reader.specs.States.{with_atom};
ghost use Rattle.pattern_characters.specs.Telling.{Tells};
ghost use Rattle.pattern_reader.specs.Views.{state_of};

use crate::groups::{GroupName, has_name, references};
use crate::openings::opening;
use crate::parts::{Opening, Wrap};
use crate::states::{State, opened, repeated, with_atom, with_edge, with_flags};
use pattern_characters::{
    Count, Fault, Grammar, Member, Stop, after, braces, class, member, member_tree, name, number,
    one_of,
};
use pattern_trees::{Edge, Tree};
use std::alloc::{AllocError, Global};

// Does what an opening says.
#[tactic(auto, unfolding(crate::specs::Reading::begun))]
fn begun(alloc: Global, state: State, opening: Opening) -> Result<State, Stop>
    ensures begun { Tells state_of result (spec.begun (state_of state) opening) }
{
    let flags = state.top.flags;
    let groups = state.groups;
    match opening {
        Opening::Capture => opened(alloc, Wrap::Capture(groups), true, flags, state),
        Opening::Plain(inner) => opened(alloc, Wrap::Plain, false, inner, state),
        Opening::Around(look) => opened(alloc, Wrap::Around(look), false, flags, state),
        Opening::Inline(inner) => Ok(with_flags(inner, state)),
    }
}

// Reads what follows an opening bracket.
#[tactic(auto, unfolding(crate::specs::Reading::group))]
pub(crate) fn group<'a>(
    alloc: Global,
    grammar: Grammar,
    state: State,
    rest: &'a [char],
) -> Result<(State, &'a [char]), Stop>
    ensures group { Tells (λ p. (state_of p.0, p.1.now)) result (spec.group grammar (state_of state) rest.now) }
{
    let (opening, left) = opening(alloc, grammar, state.top.flags, rest)?;
    Ok((begun(alloc, state, opening)?, left))
}

// Reads what follows a quantifier.
#[tactic(auto, unfolding(crate::specs::Reading::quantified))]
pub(crate) fn quantified<'a>(
    alloc: Global,
    count: Count,
    state: State,
    rest: &'a [char],
) -> Result<(State, &'a [char]), Stop>
    ensures quantified { Tells (λ p. (state_of p.0, p.1.now)) result (spec.quantified count (state_of state) rest.now) }
{
    match after('?', rest) {
        Some(left) => Ok((repeated(alloc, count, false, state)?, left)),
        None => Ok((repeated(alloc, count, true, state)?, rest)),
    }
}

// Adds the set of a member.
fn with_member(alloc: Global, state: State, m: Member) -> Result<State, AllocError>
    requires member { IsMember m }
    ensures member { IfOk result (λ s. state_of s ≡ with_atom (member_node state.top.flags m) (state_of state)) }
{
    let tree = member_tree(alloc, state.top.flags, m)?;
    Ok(with_atom(alloc, state, tree)?)
}

// Adds a character that stands for itself.
#[tactic(auto, unfolding(crate::specs::Reading::literal))]
pub(crate) fn literal(alloc: Global, c: char, state: State) -> Result<State, AllocError>
    ensures literal { IfOk result (λ s. state_of s ≡ spec.literal c (state_of state)) }
{
    Ok(with_member(alloc, state, Member::One(c as u32))?)
}

// Reads what follows an opening brace.
#[tactic(auto, unfolding(crate::specs::Reading::braced))]
pub(crate) fn braced<'a>(
    alloc: Global,
    grammar: Grammar,
    state: State,
    rest: &'a [char],
) -> Result<(State, &'a [char]), Stop>
    ensures braced { Tells (λ p. (state_of p.0, p.1.now)) result (spec.braced grammar (state_of state) rest.now (braces rest.now)) }
{
    match braces(rest) {
        Some((count, left)) => quantified(alloc, count, state, left),
        None if grammar.strict => Err(Stop::Refused(Fault::LoneBracket)),
        None => Ok((literal(alloc, '{', state)?, rest)),
    }
}

// Adds a back reference.
#[tactic(auto, unfolding(crate::specs::Reading::referred))]
fn referred<'a>(
    alloc: Global,
    tree: Tree,
    state: State,
    rest: &'a [char],
) -> Result<(State, &'a [char]), Stop>
    ensures referred { Tells (λ p. (state_of p.0, p.1.now)) result (spec.referred (node_of tree) (state_of state) rest.now) }
{
    if state.top.flags.ignore_case {
        return Err(Stop::Refused(Fault::ReferenceIgnoringCase));
    }
    Ok((with_atom(alloc, state, tree)?, rest))
}

// Reads the escape of a set.
#[tactic(auto, unfolding(crate::specs::Reading::escaped_set))]
pub(crate) fn escaped_set<'a>(
    alloc: Global,
    grammar: Grammar,
    state: State,
    text: &'a [char],
) -> Result<(State, &'a [char]), Stop>
    ensures set { Tells (λ p. (state_of p.0, p.1.now)) result (spec.escaped_set grammar (state_of state) text.now) }
{
    let (m, left) = member(alloc, grammar, false, text)?;
    Ok((with_member(alloc, state, m)?, left))
}

// Reads what follows `\k`.
#[tactic(auto, unfolding(crate::specs::Reading::named_reference))]
fn named_reference<'a>(
    alloc: Global,
    names: &[GroupName],
    state: State,
    text: &'a [char],
) -> Result<(State, &'a [char]), Stop>
    ensures reference { Tells (λ p. (state_of p.0, p.1.now)) result (spec.named_reference (names_of names.now) (state_of state) text.now) }
{
    let Some(angle) = after('<', text) else {
        return Err(Stop::Refused(Fault::BadName));
    };
    let Some((wanted, left)) = name(alloc, angle)? else {
        return Err(Stop::Refused(Fault::BadName));
    };
    if !has_name(wanted.as_slice(), names) {
        return Err(Stop::Refused(Fault::NoSuchName));
    }
    let tree = references(alloc, wanted.as_slice(), names)?;
    referred(alloc, tree, state, left)
}

// Reads an escape that begins with a digit from 1 to 9.
#[tactic(auto, unfolding(crate::specs::Reading::numbered))]
fn numbered<'a>(
    alloc: Global,
    grammar: Grammar,
    state: State,
    text: &'a [char],
) -> Result<(State, &'a [char]), Stop>
    ensures numbered { Tells (λ p. (state_of p.0, p.1.now)) result (spec.numbered grammar (state_of state) text.now (number text.now)) }
{
    let Some((n, left)) = number(text) else {
        return escaped_set(alloc, grammar, state, text);
    };
    let n = n as usize;
    if n <= grammar.groups {
        return referred(alloc, Tree::Reference(n.saturating_sub(1)), state, left);
    }
    if grammar.strict {
        return Err(Stop::Refused(Fault::NoSuchGroup));
    }
    escaped_set(alloc, grammar, state, text)
}

// Returns the assertion of an escape.
fn edge_of(grammar: Grammar, c: char) -> Option<Edge>
    ensures edge { result ≡ spec.edge_of grammar c }
{
    match c {
        'b' => Some(Edge::WordEdge),
        'B' => Some(Edge::NoWordEdge),
        'A' if grammar.extended => Some(Edge::TextStart),
        'z' | 'Z' if grammar.extended => Some(Edge::TextEnd),
        _ => None,
    }
}

// Reads an escape that is no assertion.
#[tactic(auto, unfolding(crate::specs::Reading::or_edge))]
fn or_edge<'a>(
    alloc: Global,
    grammar: Grammar,
    names: &[GroupName],
    state: State,
    c: char,
    rest: &'a [char],
    text: &'a [char],
) -> Result<(State, &'a [char]), Stop>
    requires whole { text.now ≡ c ∷ rest.now }
    ensures escape { Tells (λ p. (state_of p.0, p.1.now)) result (spec.or_edge grammar (names_of names.now) (state_of state) c rest.now None) }
{
    match c {
        'k' if grammar.strict || grammar.named => named_reference(alloc, names, state, rest),
        '1'..='9' => numbered(alloc, grammar, state, text),
        _ => escaped_set(alloc, grammar, state, text),
    }
}

// Reads what follows a backslash.
#[tactic(auto, unfolding(crate::specs::Reading::escape, crate::specs::Reading::or_edge))]
pub(crate) fn escape<'a>(
    alloc: Global,
    grammar: Grammar,
    names: &[GroupName],
    state: State,
    text: &'a [char],
) -> Result<(State, &'a [char]), Stop>
    ensures escape { Tells (λ p. (state_of p.0, p.1.now)) result (spec.escape grammar (names_of names.now) (state_of state) text.now) }
{
    let [c, rest @ ..] = text else {
        return Err(Stop::Refused(Fault::BadEscape));
    };
    if let Some(edge) = edge_of(grammar, *c) {
        return Ok((with_edge(alloc, grammar, edge, state)?, rest));
    }
    or_edge(alloc, grammar, names, state, *c, rest, text)
}

// Reads a class.
#[tactic(auto, unfolding(crate::specs::Reading::class_atom))]
pub(crate) fn class_atom<'a>(
    alloc: Global,
    grammar: Grammar,
    state: State,
    text: &'a [char],
) -> Result<(State, &'a [char]), Stop>
    ensures class { Tells (λ p. (state_of p.0, p.1.now)) result (spec.class_atom grammar (state_of state) text.now) }
{
    let (spans, left) = class(alloc, grammar, state.top.flags, text)?;
    Ok((with_atom(alloc, state, one_of(spans))?, left))
}
