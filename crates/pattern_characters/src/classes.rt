//! Classes of characters.
ghost use Rattle.std.specs.Prelude.{◌≡◌, ◌≤◌, [], IfOk, IfErr, option_map};
ghost use Rattle.pattern_characters.specs.Classes as spec;
ghost use Rattle.pattern_characters.specs.Sets.{IsMember};
ghost use Rattle.pattern_characters.specs.declared.parts.Member.TheVariants.{One};
ghost use Rattle.pattern_characters.specs.declared.faults.Stop.TheVariants.{OutOfMemory};
ghost use Rattle.pattern_characters.specs.Telling.{Tells};

use crate::escapes::member;
use crate::faults::{Fault, Stop};
use crate::members::{folded, with_member};
use crate::parts::{Flags, Grammar, Member};
use crate::spans::Spans;
use std::alloc::{AllocError, Global};

// Reads a character or an escape in a class.
#[tactic(auto, unfolding(crate::specs::Classes::class_atom))]
fn class_atom(alloc: Global, grammar: Grammar, text: &[char]) -> Result<(Member, &[char]), Stop>
    ensures atom { Tells (λ p. (p.0, p.1.now)) result (spec.class_atom grammar text.now) }
    ensures small { IfOk result (λ p. IsMember p.0) }
{
    match text {
        [] => Err(Stop::Refused(Fault::OpenClass)),
        ['\\', rest @ ..] => member(alloc, grammar, true, rest),
        [c, rest @ ..] => Ok((Member::One(*c as u32), rest)),
    }
}

// Returns the text after a hyphen that makes a range.
fn after_hyphen(text: &[char]) -> Option<&[char]>
    ensures after { option_map (λ t. t.now) result ≡ spec.after_hyphen text.now }
{
    match text {
        ['-', ']', ..] => None,
        ['-', rest @ ..] => Some(rest),
        _ => None,
    }
}

// Returns the set with three further members.
fn with_three(
    alloc: Global,
    ignore_case: bool,
    spans: Spans,
    a: Member,
    b: Member,
) -> Result<Spans, Stop>
    requires first { IsMember a }
    requires last { IsMember b }
    ensures three { IfOk result (λ s. s.items.items ≡ spec.with_member ignore_case (spec.with_member ignore_case (spec.with_member ignore_case spans.items.items a) b) (One 45)) }
    ensures memory { IfErr result (λ e. e ≡ OutOfMemory) }
{
    let spans = with_member(alloc, ignore_case, spans, a)?;
    let spans = with_member(alloc, ignore_case, spans, b)?;
    let spans = with_member(alloc, ignore_case, spans, Member::One(45))?;
    Ok(spans)
}

// Returns the set with a range, or in the older grammar with a set at one of its ends.
#[tactic(auto, unfolding(crate::specs::Classes::with_range))]
fn with_range(
    alloc: Global,
    grammar: Grammar,
    ignore_case: bool,
    spans: Spans,
    a: Member,
    b: Member,
) -> Result<Spans, Stop>
    requires first { IsMember a }
    requires last { IsMember b }
    ensures range { Tells (λ s. s.items.items) result (spec.with_range grammar ignore_case spans.items.items a b) }
{
    if let Member::One(low) = a {
        if let Member::One(high) = b {
            if low <= high {
                return Ok(spans.with_span(alloc, low, high)?);
            }
            return Err(Stop::Refused(Fault::RangeOutOfOrder));
        }
    }
    if grammar.strict {
        return Err(Stop::Refused(Fault::SetInRange));
    }
    Ok(with_three(alloc, ignore_case, spans, a, b)?)
}

// Reads what follows the first atom of a part of a class.
#[tactic(auto, unfolding(crate::specs::Classes::with_part))]
fn with_part<'a>(
    alloc: Global,
    grammar: Grammar,
    ignore_case: bool,
    spans: Spans,
    a: Member,
    rest: &'a [char],
) -> Result<(Spans, &'a [char]), Stop>
    requires first { IsMember a }
    ensures part { Tells (λ p. (p.0.items.items, p.1.now)) result (spec.with_part grammar ignore_case spans.items.items a rest.now (spec.after_hyphen rest.now)) }
{
    let Some(after) = after_hyphen(rest) else {
        return Ok((with_member(alloc, ignore_case, spans, a)?, rest));
    };
    let (b, left) = class_atom(alloc, grammar, after)?;
    Ok((with_range(alloc, grammar, ignore_case, spans, a, b)?, left))
}

// Reads a part of a class.
#[tactic(auto, unfolding(crate::specs::Classes::class_part))]
fn class_part<'a>(
    alloc: Global,
    grammar: Grammar,
    ignore_case: bool,
    spans: Spans,
    text: &'a [char],
) -> Result<(Spans, &'a [char]), Stop>
    ensures part { Tells (λ p. (p.0.items.items, p.1.now)) result (spec.class_part grammar ignore_case spans.items.items text.now) }
{
    let (a, rest) = class_atom(alloc, grammar, text)?;
    with_part(alloc, grammar, ignore_case, spans, a, rest)
}

// Reads the parts of a class up to its closing bracket.
#[tactic(auto, unfolding(crate::specs::Classes::parts_from))]
fn parts(
    alloc: Global,
    grammar: Grammar,
    ignore_case: bool,
    text: &[char],
) -> Result<(Spans, &[char]), Stop>
    ensures parts { Tells (λ p. (p.0.items.items, p.1.now)) result (spec.parts_from text.now grammar ignore_case [] text.now) }
{
    let mut spans = Spans::new(alloc);
    let mut rest = text;
    let mut steps = text;
    loop {
        let [_, fewer @ ..] = steps else {
            return Err(Stop::Refused(Fault::OpenClass));
        };
        match rest {
            [] => return Err(Stop::Refused(Fault::OpenClass)),
            [']', left @ ..] => return Ok((spans, left)),
            _ => {
                let (more, left) = class_part(alloc, grammar, ignore_case, spans, rest)?;
                spans = more;
                rest = left;
            }
        }
        steps = fewer;
    }
}

// Returns the set of a class of these parts.
fn class_spans(
    alloc: Global,
    negated: bool,
    ignore_case: bool,
    spans: Spans,
) -> Result<Spans, AllocError>
    ensures spans { IfOk result (λ s. s.items.items ≡ spec.class_spans negated ignore_case spans.items.items) }
{
    let spans = folded(alloc, ignore_case, spans)?;
    if negated {
        return Ok(spans.others(alloc)?);
    }
    Ok(spans)
}

// Reads a class after its opening bracket and its `^`.
#[tactic(auto, unfolding(crate::specs::Classes::class_from))]
fn class_from(
    alloc: Global,
    negated: bool,
    grammar: Grammar,
    flags: Flags,
    text: &[char],
) -> Result<(Spans, &[char]), Stop>
    ensures class { Tells (λ p. (p.0.items.items, p.1.now)) result (spec.class_from negated grammar flags text.now) }
{
    let (spans, rest) = parts(alloc, grammar, flags.ignore_case, text)?;
    Ok((class_spans(alloc, negated, flags.ignore_case, spans)?, rest))
}

/// Reads a class after its opening bracket.
///
/// # Errors
///
/// Fails if the text is refused or memory cannot be allocated.
#[tactic(auto, unfolding(crate::specs::Classes::class))]
pub fn class(
    alloc: Global,
    grammar: Grammar,
    flags: Flags,
    text: &[char],
) -> Result<(Spans, &[char]), Stop>
    ensures class { Tells (λ p. (p.0.items.items, p.1.now)) result (spec.class grammar flags text.now) }
{
    match text {
        [] => Err(Stop::Refused(Fault::OpenClass)),
        ['^', rest @ ..] => class_from(alloc, true, grammar, flags, rest),
        _ => class_from(alloc, false, grammar, flags, text),
    }
}
