//! The sets of the parts of a class.
ghost use Rattle.std.specs.Prelude.{◌≡◌, ◌≤◌, ◌==◌, ◌&&◌, nat_le, not, true, false, IfOk, OnOk, []};
ghost use Rattle.std.specs.List.{list_all};
ghost use Rattle.unicode.specs.Rows.{AreRanges};
ghost use Rattle.ucd_sets.specs.Sets as property;
ghost use Rattle.unicode.specs.CaseFolding.{fold_pairs};
ghost use Rattle.pattern_trees.specs.Sets.{in_set};
ghost use Rattle.pattern_trees.specs.Nodes.{node_of, OneOf};
ghost use Rattle.pattern_trees.specs.Patterns.{is_line_end};
ghost use Rattle.pattern_characters.specs.Sets.{with_more, with_spans, others, letter_spans, has_member, unless, spans_where, IsMember, twins, folded, member_node, dot_node};

use crate::characters::LAST;
use crate::faults::OutOfMemory;
use crate::parts::{Flags, Letter, Member};
use crate::spans::Spans;
use pattern_trees::{CharSet, Tree};
use std::alloc::{AllocError, Global};
use unicode::case::fold_pairs;
use unicode::sets::Set;

// Returns the set with the code points of further spans.
#[tactic(auto, unfolding(crate::specs::Sets::with_spans))]
fn with_spans(alloc: Global, spans: Spans, ranges: &[(u32, u32)]) -> Result<Spans, AllocError>
    requires ranges { AreRanges ranges.now }
    ensures more { IfOk result (λ s. s.items.items ≡ with_spans spans.items.items ranges.now) }
{
    let mut spans = spans;
    let mut rest = ranges;
    loop {
        let [range, left @ ..] = rest else {
            return Ok(spans);
        };
        spans = spans.with_span(alloc, range.0, range.1)?;
        rest = left;
    }
}

// Returns the spans of a letter's set.
fn letter_spans(ignore_case: bool, letter: Letter) -> &'static [(u32, u32)]
    ensures spans { result.now ≡ letter_spans ignore_case letter }
    ensures ranges { AreRanges result.now }
{
    match letter {
        Letter::Digits => &[(48, 57)],
        Letter::Spaces => &[
            (9, 13),
            (32, 32),
            (0xA0, 0xA0),
            (0x1680, 0x1680),
            (0x2000, 0x200A),
            (0x2028, 0x2029),
            (0x202F, 0x202F),
            (0x205F, 0x205F),
            (0x3000, 0x3000),
            (0xFEFF, 0xFEFF),
        ],
        Letter::Words if ignore_case => &[
            (48, 57),
            (65, 90),
            (95, 95),
            (97, 122),
            (0x17F, 0x17F),
            (0x212A, 0x212A),
        ],
        Letter::Words => &[(48, 57), (65, 90), (95, 95), (97, 122)],
    }
}

// Returns the set with the code points of further spans.
#[tactic(auto, using(crate::proofs::OfMembers::all_spans))]
fn with_all(alloc: Global, spans: Spans, ranges: &[(u32, u32)]) -> Result<Spans, AllocError>
    requires ranges { AreRanges ranges.now }
    ensures more { IfOk result (λ s. s.items.items ≡ with_more spans.items.items (in_set ranges.now)) }
{
    Ok(with_spans(alloc, spans, ranges)?)
}

// Returns the set of the code points in these spans, or of the others.
#[tactic(auto, using(crate::proofs::OfMembers::unless_plain, crate::proofs::OfMembers::unless_others))]
fn spans_of(alloc: Global, ranges: &[(u32, u32)], negated: bool) -> Result<Spans, AllocError>
    requires ranges { AreRanges ranges.now }
    ensures spans { IfOk result (λ s. s.items.items ≡ with_more [] (λ c. unless negated (in_set ranges.now c))) }
{
    let spans = with_all(alloc, Spans::new(alloc), ranges)?;
    if negated {
        return Ok(spans.others(alloc)?);
    }
    Ok(spans)
}

// Returns the set of a property of characters, or the others.
#[tactic(auto, using(crate::proofs::OfMembers::of_set))]
fn spans_with(alloc: Global, set: Set, negated: bool) -> Result<Spans, AllocError>
    ensures spans { IfOk result (λ s. s.items.items ≡ with_more [] (λ c. unless negated (property.in_set set c))) }
{
    let ranges = set.ranges(alloc)?;
    Ok(spans_of(alloc, ranges.as_slice(), negated)?)
}

// Returns the set of one character.
#[tactic(auto, using(crate::proofs::OfMembers::with_one))]
fn spans_one(alloc: Global, v: u32) -> Result<Spans, AllocError>
    requires member { v ≤ 0x10_FFFF }
    ensures spans { IfOk result (λ s. s.items.items ≡ with_more [] (λ c. c == v)) }
{
    let none = Spans::new(alloc);
    Ok(none.with_span(alloc, v, v)?)
}

// Returns the set of a part of a class.
fn member_spans(alloc: Global, ignore_case: bool, m: Member) -> Result<Spans, AllocError>
    requires member { IsMember m }
    ensures member { IfOk result (λ s. s.items.items ≡ with_more [] (has_member ignore_case m)) }
{
    match m {
        Member::One(v) => Ok(spans_one(alloc, v)?),
        Member::Of(letter, negated) => {
            Ok(spans_of(alloc, letter_spans(ignore_case, letter), negated)?)
        }
        Member::With(set, negated) => Ok(spans_with(alloc, set, negated)?),
    }
}

// Returns the set with the characters of one more part of a class.
#[tactic(auto, using(crate::proofs::OfMembers::with_members, crate::proofs::OfMembers::kept_ranges))]
pub(crate) fn with_member(
    alloc: Global,
    ignore_case: bool,
    spans: Spans,
    m: Member,
) -> Result<Spans, AllocError>
    requires member { IsMember m }
    ensures member { IfOk result (λ s. s.items.items ≡ with_more spans.items.items (has_member ignore_case m)) }
{
    let more = member_spans(alloc, ignore_case, m)?;
    Ok(with_all(alloc, spans, more.items.as_slice())?)
}

// Returns whether a code point is in one of the spans.
fn is_in(spans: &[(u32, u32)], c: u32) -> bool
    ensures has { result ≡ in_set spans.now c }
{
    for span in spans {
        if span.0 <= c && c <= span.1 {
            return true;
        }
    }
    false
}

// Returns whether a pair's second code point is in the set.
fn is_twin(spans: &[(u32, u32)], pair: (u32, u32)) -> bool
    ensures is { result ≡ (nat_le pair.0 0x10_FFFF && in_set spans.now pair.1) }
{
    pair.0 <= LAST && is_in(spans, pair.1)
}

// Returns a span for each first code point of the pairs whose second one is in the set.
fn twins(
    alloc: Global,
    spans: &[(u32, u32)],
    pairs: &[(u32, u32)],
) -> Result<Vec<(u32, u32)>, AllocError>
    ensures twins { IfOk result (λ v. v.items ≡ twins spans.now pairs.now) }
{
    let mut out = Vec::new(alloc);
    let mut rest = pairs;
    loop {
        match rest {
            [pair, left @ ..] if is_twin(spans, *pair) => {
                out.push((pair.0, pair.0))?;
                rest = left;
            }
            [_, left @ ..] => rest = left,
            [] => return Ok(out),
        }
    }
}

// Returns the set with the characters that differ from one of it in case alone.
#[tactic(auto, using(crate::proofs::OfMembers::with_twins, crate::proofs::OfMembers::twins_ranges))]
fn with_cases(alloc: Global, spans: Spans) -> Result<Spans, AllocError>
    ensures folded { IfOk result (λ s. s.items.items ≡ folded true spans.items.items) }
{
    let more = twins(alloc, spans.items.as_slice(), fold_pairs())?;
    Ok(with_all(alloc, spans, more.as_slice())?)
}

// Returns the set, and under the flag i those that differ from one of it in case alone.
#[tactic(auto, using(crate::proofs::OfMembers::not_folded))]
pub(crate) fn folded(alloc: Global, ignore_case: bool, spans: Spans) -> Result<Spans, AllocError>
    ensures folded { IfOk result (λ s. s.items.items ≡ folded ignore_case spans.items.items) }
{
    if ignore_case {
        return Ok(with_cases(alloc, spans)?);
    }
    Ok(spans)
}

/// Returns a pattern of one character of the set.
pub fn one_of(spans: Spans) -> Tree
    ensures node { node_of result ≡ OneOf spans.items.items }
{
    let Spans { items } = spans;
    Tree::OneOf(CharSet::new(items))
}

/// Returns a pattern of one character of the set of a member.
///
/// # Errors
///
/// Fails if memory cannot be allocated.
#[tactic(auto, unfolding(crate::specs::Sets::member_node))]
pub fn member_tree(alloc: Global, flags: Flags, m: Member) -> Result<Tree, OutOfMemory>
    requires member { IsMember m }
    ensures node { IfOk result (λ t. node_of t ≡ member_node flags m) }
{
    let spans = member_spans(alloc, flags.ignore_case, m)?;
    let spans = folded(alloc, flags.ignore_case, spans)?;
    Ok(one_of(spans))
}

// Returns the set of all characters.
#[tactic(auto, using(crate::proofs::OfMembers::all_characters))]
fn all_spans(alloc: Global) -> Result<Spans, AllocError>
    ensures all { IfOk result (λ s. s.items.items ≡ spans_where (λ c. true)) }
{
    let none = Spans::new(alloc);
    Ok(none.with_span(alloc, 0, LAST)?)
}

// Returns the set of the characters that end no line.
#[tactic(auto, using(crate::proofs::OfMembers::no_line_ends))]
fn spans_in_lines(alloc: Global) -> Result<Spans, AllocError>
    ensures others { IfOk result (λ s. s.items.items ≡ spans_where (λ c. not (is_line_end c))) }
{
    let ends = with_all(
        alloc,
        Spans::new(alloc),
        &[(10, 10), (13, 13), (8232, 8233)],
    )?;
    Ok(ends.others(alloc)?)
}

/// Returns the pattern of `.`.
///
/// # Errors
///
/// Fails if memory cannot be allocated.
#[tactic(auto, using(crate::proofs::OfMembers::dot_all, crate::proofs::OfMembers::dot_lines))]
pub fn dot_tree(alloc: Global, flags: Flags) -> Result<Tree, OutOfMemory>
    ensures node { IfOk result (λ t. node_of t ≡ dot_node flags) }
{
    if flags.dot_all {
        return Ok(one_of(all_spans(alloc)?));
    }
    Ok(one_of(spans_in_lines(alloc)?))
}
