//! Sets of code points as spans in order.
ghost use Rattle.std.specs.Prelude.{◌≡◌, ◌≤◌, ◌+◌, ◌++◌, IfOk, OnOk, []};
ghost use Rattle.pattern_trees.specs.Sets.{in_set};
ghost use Rattle.pattern_characters.specs.Characters.{is_between};
ghost use Rattle.pattern_characters.specs.Sets.{with_more, others, inserted, merged, gap, gaps, spans_where};

use std::alloc::{AllocError, Global};

/// A set of code points: spans in order, with a gap after each.
#[derive(Drop)]
pub struct Spans {
    /// The spans.
    pub items: Vec<(u32, u32)>,
    ghost ordered: { items.items ≡ spans_where (in_set items.items) },
}

// Pushes the spans that end far before a code point, and returns those that are left.
#[tactic(auto, unfolding(crate::specs::Sets::inserted))]
fn push_before<'a>(
    out: &mut Vec<(u32, u32)>,
    spans: &'a [(u32, u32)],
    low: u32,
    high: u32,
) -> Result<&'a [(u32, u32)], AllocError>
    ensures before { IfOk result (λ rest. out.new.items ++ merged low high rest.now ≡ out.old.items ++ inserted low high spans.now) }
{
    let mut rest = spans;
    loop {
        match rest {
            [span, left @ ..] if span.1 < low.saturating_sub(1) => {
                out.push(*span)?;
                rest = left;
            }
            _ => return Ok(rest),
        }
    }
}

// Pushes the span with those that it meets.
#[tactic(auto, unfolding(crate::specs::Sets::merged))]
fn push_merged<'a>(
    out: &mut Vec<(u32, u32)>,
    spans: &'a [(u32, u32)],
    low: u32,
    high: u32,
) -> Result<&'a [(u32, u32)], AllocError>
    ensures merged { IfOk result (λ rest. out.new.items ++ rest.now ≡ out.old.items ++ merged low high spans.now) }
{
    let mut low = low;
    let mut high = high;
    let mut rest = spans;
    loop {
        match rest {
            [span, left @ ..] if span.0 <= high.saturating_add(1) => {
                low = low.min(span.0);
                high = high.max(span.1);
                rest = left;
            }
            _ => break,
        }
    }
    out.push((low, high))?;
    Ok(rest)
}

// Returns the spans with one more, joined to those that it meets.
fn inserted(
    alloc: Global,
    spans: &[(u32, u32)],
    low: u32,
    high: u32,
) -> Result<Vec<(u32, u32)>, AllocError>
    ensures inserted { IfOk result (λ v. v.items ≡ inserted low high spans.now) }
{
    let mut out = Vec::new(alloc);
    let rest = push_before(&mut out, spans, low, high)?;
    let rest = push_merged(&mut out, rest, low, high)?;
    out.extend_from_slice(rest)?;
    Ok(out)
}

// Pushes the code points from one on and before another, if there are any.
fn push_gap(out: &mut Vec<(u32, u32)>, next: u32, first: u32) -> Result<(), AllocError>
    ensures gap { OnOk result (out.new.items ≡ out.old.items ++ gap next first) }
{
    if next < first {
        out.push((next, first - 1))?;
    }
    Ok(())
}

// Returns the gaps between the spans.
#[tactic(auto, unfolding(crate::specs::Sets::gaps))]
fn gaps(alloc: Global, spans: &[(u32, u32)]) -> Result<Vec<(u32, u32)>, AllocError>
    ensures gaps { IfOk result (λ v. v.items ≡ gaps 0 spans.now) }
{
    let mut out = Vec::new(alloc);
    let mut next = 0u32;
    let mut rest = spans;
    loop {
        let [span, left @ ..] = rest else {
            push_gap(&mut out, next, 0x11_0000)?;
            return Ok(out);
        };
        push_gap(&mut out, next, span.0)?;
        next = span.1.saturating_add(1);
        rest = left;
    }
}

impl Spans {
    // Returns the empty set.
    #[tactic(auto, using(crate::proofs::Changing::none_kept))]
    pub(crate) fn new(alloc: Global) -> Spans
        ensures none { result.items.items ≡ [] }
    {
        Spans {
            items: Vec::new(alloc),
        }
    }

    // Returns the set with the code points of one more span.
    #[tactic(auto, using(crate::proofs::Changing::kept_more_span, crate::proofs::Changing::more_kept))]
    pub(crate) fn with_span(&self, alloc: Global, low: u32, high: u32) -> Result<Spans, AllocError>
        requires order { low ≤ high }
        requires within { high ≤ 0x10_FFFF }
        ensures more { IfOk result (λ s. s.items.items ≡ with_more self.now.items.items (is_between low high)) }
    {
        let items = inserted(alloc, self.items.as_slice(), low, high)?;
        Ok(Spans { items })
    }

    // Returns the other code points.
    #[tactic(auto, using(crate::proofs::Changing::kept_others, crate::proofs::Changing::others_kept))]
    pub(crate) fn others(&self, alloc: Global) -> Result<Spans, AllocError>
        ensures others { IfOk result (λ s. s.items.items ≡ others self.now.items.items) }
    {
        let items = gaps(alloc, self.items.as_slice())?;
        Ok(Spans { items })
    }
}
