//! Sets of positions.
ghost use Rattle.std.specs.Prelude.{◌≡◌, ◌<◌, ◌≤◌, ◌+◌, ◌/◌, ◌==◌, ◌&&◌, ◌||◌, not, ℕ, IfOk, MatchOption, length, slice_index, true, false, if◌then◌else◌, nat_le, nat_lt, ◌*◌, ◌-◌, ◌^◌};
ghost use Rattle.pattern_rows.specs.Rows.{has, width, words_of};

use crate::word::{both, either, lowest, ones, with, without};
use std::alloc::{AllocError, Global};

/// A set of positions from 0 on: a word of 64 bits, and the words after it.
///
/// Where all positions are below 64 it takes no memory.
#[derive(Drop)]
pub struct Row {
    low: u64,
    high: Vec<u64>,
}

impl Row {
    /// Returns the empty set of positions up to the last one.
    ///
    /// # Errors
    ///
    /// Fails only if memory cannot be allocated.
    pub fn empty(alloc: Global, last: usize) -> Result<Row, AllocError>
        ensures none { IfOk result (λ r. (k : ℕ) → has r k ≡ false) }
        ensures width { IfOk result (λ r. width r ≡ last / 64) }
    {
        let high = Vec::from_elem(alloc, 0u64, last / 64)?;
        Ok(Row { low: 0, high })
    }

    /// Returns the set of all positions up to the last one.
    ///
    /// # Errors
    ///
    /// Fails only if memory cannot be allocated.
    pub fn full(alloc: Global, last: usize) -> Result<Row, AllocError>
        ensures all { IfOk result (λ r. (k : ℕ) → has r k ≡ nat_le k last) }
        ensures width { IfOk result (λ r. width r ≡ last / 64) }
    {
        let words = last / 64;
        let top = ones(last % 64 + 1);
        if words == 0 {
            return Ok(Row {
                low: top,
                high: Vec::new(alloc),
            });
        }
        let mut high = Vec::from_elem(alloc, u64::MAX, words)?;
        high[words - 1] = top;
        Ok(Row {
            low: u64::MAX,
            high,
        })
    }

    /// Returns a copy.
    ///
    /// # Errors
    ///
    /// Fails only if memory cannot be allocated.
    pub fn copy(&self) -> Result<Row, AllocError>
        ensures same { IfOk result (λ r. (k : ℕ) → has r k ≡ has self.now k) }
        ensures width { IfOk result (λ r. width r ≡ width self.now) }
    {
        Ok(Row {
            low: self.low,
            high: self.high.clone()?,
        })
    }

    // Returns a word, or 0 past the end.
    fn word(&self, at: usize) -> u64
        ensures word { result ≡ slice_index (words_of self.now) at }
    {
        if at == 0 {
            return self.low;
        }
        match self.high.get(at - 1) {
            Some(word) => *word,
            None => 0,
        }
    }

    /// Returns whether a position is in the set.
    pub fn has(&self, position: usize) -> bool
        ensures has { result ≡ has self.now position }
    {
        (self.word(position / 64) >> (position % 64)) & 1 == 1
    }

    /// Puts a position into the set.
    pub fn put(&mut self, position: usize)
        requires within { position / 64 ≤ width self.old }
        ensures put { (k : ℕ) → has self.new k ≡ (if k == position then true else has self.old k) }
        ensures width { width self.new ≡ width self.old }
    {
        if position < 64 {
            self.low = with(self.low, position);
        } else {
            let at = position / 64 - 1;
            self.high[at] = with(self.high[at], position % 64);
        }
    }

    /// Puts all positions from a first to a last one into the set.
    pub fn put_span(&mut self, first: usize, last: usize)
        requires within { last / 64 ≤ width self.old }
        requires small { width self.old < 2 ^ 57 }
        ensures put { (k : ℕ) → has self.new k ≡ (has self.old k || (nat_le first k && nat_le k last)) }
        ensures width { width self.new ≡ width self.old }
    {
        'span: for position in first..last + 1 {
            self.put(position);
        }
    }

    /// Returns the first position of the set from one on.
    pub fn next(&self, from: usize) -> Option<usize>
        requires small { width self.now < 2 ^ 58 }
        ensures next { MatchOption result ((k : ℕ) → from ≤ k → has self.now k ≡ false)
            (λ m. (from ≤ m) × (has self.now m ≡ true) × ((k : ℕ) → from ≤ k → k < m → has self.now k ≡ false) × (m / 64 ≤ width self.now)) }
    {
        if let Some(bit) = lowest(self.word(from / 64), from % 64) {
            return Some(from / 64 * 64 + bit);
        }
        for at in from / 64..self.high.len() {
            if let Some(bit) = lowest(self.high[at], 0) {
                return Some(at * 64 + 64 + bit);
            }
        }
        None
    }

    /// Returns whether the set is empty.
    pub fn is_empty(&self) -> bool
        requires small { width self.now < 2 ^ 58 }
        ensures empty { result ≡ true → (k : ℕ) → has self.now k ≡ false }
        ensures some { result ≡ false → (k : ℕ) × (has self.now k ≡ true) × (k / 64 ≤ width self.now) }
    {
        self.next(0).is_none()
    }

    /// Returns whether another set is the same.
    ///
    /// It may also say no where one set has words past the other's end.
    pub fn is_same(&self, other: &Row) -> bool
        ensures same { result ≡ true → (k : ℕ) → has self.now k ≡ has other.now k }
    {
        self.low == other.low && self.high.as_slice() == other.high.as_slice()
    }

    /// Puts the positions of another set into this one.
    pub fn unite(&mut self, other: &Row)
        requires same { width self.old ≡ width other.now }
        ensures both { (k : ℕ) → has self.new k ≡ (has self.old k || has other.now k) }
        ensures width { width self.new ≡ width self.old }
    {
        self.low = either(self.low, other.low);
        for i in 0..self.high.len() {
            self.high[i] = either(self.high[i], other.high[i]);
        }
    }

    /// Keeps the positions that another set has too.
    pub fn meet(&mut self, other: &Row)
        requires same { width self.old ≡ width other.now }
        ensures both { (k : ℕ) → has self.new k ≡ (has self.old k && has other.now k) }
        ensures width { width self.new ≡ width self.old }
    {
        self.low = both(self.low, other.low);
        for i in 0..self.high.len() {
            self.high[i] = both(self.high[i], other.high[i]);
        }
    }

    /// Takes the positions of another set out of this one.
    pub fn remove(&mut self, other: &Row)
        requires same { width self.old ≡ width other.now }
        ensures both { (k : ℕ) → has self.new k ≡ (has self.old k && not (has other.now k)) }
        ensures width { width self.new ≡ width self.old }
    {
        self.low = without(self.low, other.low);
        for i in 0..self.high.len() {
            self.high[i] = without(self.high[i], other.high[i]);
        }
    }
}
