//! Sets of characters.
ghost use Rattle.std.specs.Prelude.{◌≡◌, ◌<◌, ◌≤◌, ◌+◌, ◌++◌, ◌==◌, ℕ, IfOk, true, if◌then◌else◌};
ghost use Rattle.std.specs.Int.{bit_at};
ghost use Rattle.pattern_trees.specs.Sets.{IsInOrder, in_set};

use std::alloc::{AllocError, Global};

/// A set of characters: spans from a first to a last code point.
///
/// A bit for each ASCII character answers most questions without the spans. Other characters are
/// looked up in the spans: by halves, if those are in order.
#[derive(Drop)]
pub struct CharSet {
    /// The first and the last code point of each span.
    pub spans: Vec<(u32, u32)>,
    low: u64,
    mid: u64,
    is_in_order: bool,
    ghost order: { is_in_order ≡ true → IsInOrder spans.items },
    ghost low_bits: { (c : ℕ) → c < 64 → (bit_at low c == 1) ≡ in_set spans.items c },
    ghost mid_bits: { (c : ℕ) → c < 64 → (bit_at mid c == 1) ≡ in_set spans.items (64 + c) },
}

impl CharSet {
    /// Returns the set of the characters in these spans.
    pub fn new(spans: Vec<(u32, u32)>) -> CharSet
        ensures spans { result.spans ≡ spans }
    {
        let is_in_order = are_in_order(spans.as_slice());
        let low = bits_from(spans.as_slice(), is_in_order, 0);
        let mid = bits_from(spans.as_slice(), is_in_order, 64);
        CharSet {
            spans,
            low,
            mid,
            is_in_order,
        }
    }

    /// Returns whether a character is in the set.
    #[inline]
    pub fn has(&self, c: char) -> bool
        ensures has { result ≡ in_set self.now.spans.items c }
    {
        let c = c as u32;
        if c < 128 {
            let word = if c < 64 { self.low } else { self.mid };
            return (word >> (c % 64)) & 1 == 1;
        }
        is_member(self.spans.as_slice(), self.is_in_order, c)
    }

    /// Returns a copy.
    ///
    /// # Errors
    ///
    /// Fails only if memory cannot be allocated.
    pub fn copy(&self) -> Result<CharSet, AllocError>
        ensures spans { IfOk result (λ s. s.spans.items ≡ self.now.spans.items) }
    {
        Ok(CharSet {
            spans: self.spans.clone()?,
            low: self.low,
            mid: self.mid,
            is_in_order: self.is_in_order,
        })
    }

    /// Returns the set of the characters in this set or in another.
    ///
    /// # Errors
    ///
    /// Fails only if memory cannot be allocated.
    pub fn united(&self, alloc: Global, other: &CharSet) -> Result<CharSet, AllocError>
        ensures spans { IfOk result (λ s. s.spans.items ≡ self.now.spans.items ++ other.now.spans.items) }
    {
        let mut spans = Vec::with_capacity(
            alloc,
            self.spans.len().saturating_add(other.spans.len()),
        )?;
        spans.extend_from_slice(self.spans.as_slice())?;
        spans.extend_from_slice(other.spans.as_slice())?;
        Ok(CharSet::new(spans))
    }
}

// Returns whether each span ends before the next one begins, and none before it begins.
fn are_in_order(spans: &[(u32, u32)]) -> bool
    ensures order { result ≡ true → IsInOrder spans.now }
{
    for i in 0..spans.len() {
        if spans[i].1 < spans[i].0 {
            return false;
        }
        if 0 < i && spans[i].0 <= spans[i - 1].1 {
            return false;
        }
    }
    true
}

// Returns whether a code point is in one of the spans, which are in order.
fn is_found(spans: &[(u32, u32)], c: u32) -> bool
    requires order { IsInOrder spans.now }
    ensures has { result ≡ in_set spans.now c }
{
    let mut first = 0;
    let mut end = spans.len();
    'halves: while first < end {
        let middle = first + (end - first) / 2;
        if c < spans[middle].0 {
            end = middle;
        } else if spans[middle].1 < c {
            first = middle + 1;
        } else {
            return true;
        }
    }
    false
}

// Returns whether a code point is in one of the spans, of which is known whether they are in order.
fn is_member(spans: &[(u32, u32)], is_in_order: bool, c: u32) -> bool
    requires order { is_in_order ≡ true → IsInOrder spans.now }
    ensures has { result ≡ in_set spans.now c }
{
    if is_in_order {
        return is_found(spans, c);
    }
    is_in(spans, c)
}

// Returns whether a code point is in one of the spans.
fn is_in(spans: &[(u32, u32)], c: u32) -> bool
    ensures has { result ≡ in_set spans.now c }
{
    for span in spans {
        if span.0 <= c && c <= span.1 {
            return true;
        }
    }
    false
}

// Returns the word with one more bit set.
fn with(word: u64, bit: u32) -> u64
    requires within { bit < 64 }
    ensures bits { (k : ℕ) → (bit_at result k == 1) ≡ (if k == bit then true else bit_at word k == 1) }
{
    word | (1u64 << bit)
}

// Returns a bit for each of the 64 code points from a first one on.
fn bits_from(spans: &[(u32, u32)], is_in_order: bool, first: u32) -> u64
    requires order { is_in_order ≡ true → IsInOrder spans.now }
    requires small { first < 128 }
    ensures bits { (c : ℕ) → c < 64 → (bit_at result c == 1) ≡ in_set spans.now (first + c) }
{
    let mut word = 0u64;
    for bit in 0..64u32 {
        if is_member(spans, is_in_order, first + bit) {
            word = with(word, bit);
        }
    }
    word
}
