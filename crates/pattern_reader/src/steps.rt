//! Reads a pattern to its end.
ghost use Rattle.std.specs.Prelude.{◌≡◌, ◌&&◌, ◌||◌, ◌==◌, IfOk};
ghost use Rattle.pattern_characters.specs.Characters.{seen};
ghost use Rattle.pattern_reader.specs.Groups.{names_of};
ghost use Rattle.pattern_reader.specs.Openings as flags_spec;
ghost use Rattle.pattern_reader.specs.Reading as spec;
ghost use Rattle.pattern_reader.specs.States as states_spec;
ghost use Rattle.pattern_characters.specs.Telling.{Tells};
ghost use Rattle.pattern_reader.specs.Views.{state_of};

use crate::errors::Refusal;
use crate::groups::GroupName;
use crate::openings::no_flags;
use crate::states::{State, closed, start, with_atom, with_bar, with_edge};
use crate::terms::{braced, class_atom, escape, group, literal, quantified};
use pattern_characters::{Count, Fault, Flags, Grammar, Stop, dot_tree};
use pattern_trees::Edge;
use std::alloc::{AllocError, Global};

// Returns how often a sign repeats.
fn sign_count(c: char) -> Count
    ensures count { result ≡ spec.sign_count c }
{
    match c {
        '*' => Count { min: 0, max: None },
        '+' => Count { min: 1, max: None },
        _ => Count {
            min: 0,
            max: Some(1),
        },
    }
}

// Returns the assertion of `^`.
fn line_start(flags: Flags) -> Edge
    ensures edge { result ≡ spec.line_start flags }
{
    if flags.multiline {
        Edge::LineStart
    } else {
        Edge::TextStart
    }
}

// Returns the assertion of `$`.
fn line_end(flags: Flags) -> Edge
    ensures edge { result ≡ spec.line_end flags }
{
    if flags.multiline {
        Edge::LineEnd
    } else {
        Edge::TextEnd
    }
}

// Returns whether a character that stands for itself may not do so.
fn is_lone(grammar: Grammar, c: char) -> bool
    ensures is { result ≡ (grammar.strict && ((c == 93) || (c == 125))) }
{
    grammar.strict && (c == ']' || c == '}')
}

// Reads a character that stands for itself.
#[tactic(auto, unfolding(crate::specs::Reading::itself))]
fn itself<'a>(
    alloc: Global,
    grammar: Grammar,
    state: State,
    c: char,
    rest: &'a [char],
) -> Result<(State, &'a [char]), Stop>
    ensures itself { Tells (λ p. (state_of p.0, p.1.now)) result (spec.itself grammar (state_of state) c rest.now) }
{
    if is_lone(grammar, c) {
        return Err(Stop::Refused(Fault::LoneBracket));
    }
    Ok((literal(alloc, c, state)?, rest))
}

// Reads a closing bracket.
#[tactic(auto, unfolding(crate::specs::Reading::closing))]
fn closing<'a>(
    alloc: Global,
    grammar: Grammar,
    state: State,
    rest: &'a [char],
) -> Result<(State, &'a [char]), Stop>
    ensures closing { Tells (λ p. (state_of p.0, p.1.now)) result (spec.closing grammar (state_of state) rest.now) }
{
    Ok((closed(alloc, grammar, state)?, rest))
}

// Reads one step.
#[tactic(auto, unfolding(crate::specs::Reading::step))]
fn step<'a>(
    alloc: Global,
    grammar: Grammar,
    names: &[GroupName],
    state: State,
    c: char,
    rest: &'a [char],
) -> Result<(State, &'a [char]), Stop>
    ensures step { Tells (λ p. (state_of p.0, p.1.now)) result (spec.step grammar (names_of names.now) (state_of state) c rest.now) }
{
    let flags = state.top.flags;
    match c {
        '|' => Ok((with_bar(alloc, state)?, rest)),
        '(' => group(alloc, grammar, state, rest),
        ')' => closing(alloc, grammar, state, rest),
        '^' => Ok((with_edge(alloc, grammar, line_start(flags), state)?, rest)),
        '$' => Ok((with_edge(alloc, grammar, line_end(flags), state)?, rest)),
        '.' => {
            let tree = dot_tree(alloc, flags)?;
            Ok((with_atom(alloc, state, tree)?, rest))
        }
        '[' => class_atom(alloc, grammar, state, rest),
        '\\' => escape(alloc, grammar, names, state, rest),
        '*' | '+' | '?' => quantified(alloc, sign_count(c), state, rest),
        '{' => braced(alloc, grammar, state, rest),
        _ => itself(alloc, grammar, state, c, rest),
    }
}

// Returns the state at the end of the text, unless a group is open there.
#[tactic(auto, using(crate::proofs::Lasts::ended_none, crate::proofs::Lasts::ended_some))]
fn ended(state: State) -> Result<State, Refusal>
    ensures ended { seen state_of result ≡ spec.ended (state_of state) }
{
    if state.around.is_empty() {
        return Ok(state);
    }
    Err(Refusal {
        fault: Fault::OpenGroup,
        left: 0,
    })
}

// Reads a pattern step by step.
#[tactic(auto, unfolding(crate::specs::Reading::read_from))]
pub(crate) fn read_all(
    alloc: Global,
    grammar: Grammar,
    names: &[GroupName],
    text: &[char],
) -> Result<Result<State, Refusal>, AllocError>
    ensures read { IfOk result (λ r. seen state_of r ≡ spec.read_from text.now grammar (names_of names.now) (states_spec.start flags_spec.no_flags) text.now) }
{
    let mut state = start(alloc, no_flags());
    let mut rest = text;
    let mut steps = text;
    loop {
        let [_, fewer @ ..] = steps else {
            return Ok(ended(state));
        };
        let [c, left @ ..] = rest else {
            return Ok(ended(state));
        };
        match step(alloc, grammar, names, state, *c, left) {
            Ok((new, more)) => {
                state = new;
                rest = more;
                steps = fewer;
            }
            Err(Stop::Refused(fault)) => {
                let left = rest.len();
                return Ok(Err(Refusal { fault, left }));
            }
            Err(Stop::OutOfMemory) => return Err(AllocError {}),
        }
    }
}
