//! Words of 64 bits.
ghost use Rattle.std.specs.Prelude.{◌≡◌, ◌<◌, ◌≤◌, ◌==◌, ◌&&◌, ◌||◌, not, ℕ, MatchOption, true, false, if◌then◌else◌, nat_le, nat_lt};
ghost use Rattle.std.specs.Int.{bit_at};

/// Returns a word whose lowest bits are set, so many of them.
#[inline(always)]
pub fn ones(count: usize) -> u64
    requires some { 0 < count }
    requires within { count ≤ 64 }
    ensures bits { (k : ℕ) → (bit_at result k == 1) ≡ nat_lt k count }
{
    u64::MAX >> (64 - count)
}

/// Returns the bits of both words.
#[inline(always)]
pub fn either(a: u64, b: u64) -> u64
    ensures bits { (k : ℕ) → (bit_at result k == 1) ≡ ((bit_at a k == 1) || (bit_at b k == 1)) }
{
    a | b
}

/// Returns the bits that two words share.
#[inline(always)]
pub fn both(a: u64, b: u64) -> u64
    ensures bits { (k : ℕ) → (bit_at result k == 1) ≡ ((bit_at a k == 1) && (bit_at b k == 1)) }
{
    a & b
}

/// Returns the bits of a word that another does not have.
#[inline(always)]
pub fn without(a: u64, b: u64) -> u64
    ensures bits { (k : ℕ) → (bit_at result k == 1) ≡ ((bit_at a k == 1) && not (bit_at b k == 1)) }
{
    a & !b
}

/// Returns the word with one more bit set.
#[inline(always)]
pub fn with(a: u64, bit: usize) -> u64
    requires within { bit < 64 }
    ensures bits { (k : ℕ) → (bit_at result k == 1) ≡ (if k == bit then true else bit_at a k == 1) }
{
    a | (1u64 << bit)
}

/// Returns the word with all bits set from a first to a last one.
#[inline(always)]
pub fn with_span(a: u64, first: usize, last: usize) -> u64
    requires within { last < 64 }
    ensures bits { (k : ℕ) → (bit_at result k == 1) ≡ ((bit_at a k == 1) || (nat_le first k && nat_le k last)) }
{
    if last < first {
        return a;
    }
    let to_first = ones(first + 1);
    let at_first = with(0, first);
    let before = without(to_first, at_first);
    let to_last = ones(last + 1);
    let span = without(to_last, before);
    either(a, span)
}

/// Returns the lowest bit from one on, if there is one.
#[inline(always)]
pub fn lowest(a: u64, from: usize) -> Option<usize>
    requires within { from < 64 }
    ensures lowest { MatchOption result ((k : ℕ) → from ≤ k → (bit_at a k == 1) ≡ false)
        (λ m. (from ≤ m) × (m < 64) × ((bit_at a m == 1) ≡ true) × ((k : ℕ) → from ≤ k → k < m → (bit_at a k == 1) ≡ false)) }
{
    let rest = a >> from;
    if rest == 0 {
        None
    } else {
        Some(from + rest.trailing_zeros() as usize)
    }
}
