//! One step of a pattern on words, and any number of steps over one set.
ghost use Rattle.std.specs.Prelude.{◌⊎◌, ◌≡◌, ◌<◌, ◌≤◌, ◌+◌, ◌-◌, ◌==◌, ◌&&◌, ◌||◌, ◌^◌, ℕ, Some, None, MatchOption, length, not, slice_index, true, false, nat_le};
ghost use Rattle.pattern_trees.specs.Patterns.{At, One, Repeat};
ghost use Rattle.pattern_trees.specs.Sets.{in_set};
ghost use Rattle.pattern_sets.specs.Images.{GoesOn, IsImage, IsTaken, Joined, Meets, Misses, Reaches, RunsFor, Steps, in_word, leads};

use crate::at_position::{is_at, takes};
use crate::runs::{after_run, run_end, run_start};
use crate::turns::most_turns;
use pattern_rows::{both, lowest, ones, with, with_span, without};
use pattern_trees::{CharSet, Edge};

/// Returns the next position of a word from one on.
#[inline(always)]
pub fn next(word: u64, from: usize) -> Option<usize>
    ensures next { MatchOption result ((k : ℕ) → from ≤ k → in_word word k ≡ false)
        (λ m. (from ≤ m) × (in_word word m ≡ true) × ((k : ℕ) → from ≤ k → k < m → in_word word k ≡ false) × (m < 64)) }
{
    if from >= 64 {
        return None;
    }
    lowest(word, from)
}

// Returns whether a word has a position.
#[inline(always)]
fn has(word: u64, position: usize) -> bool
    requires within { position < 64 }
    ensures has { result ≡ in_word word position }
{
    (word >> position) & 1 == 1
}

/// Returns all positions up to the last.
#[inline(always)]
pub fn all(last: usize) -> u64
    requires within { last < 64 }
    ensures all { (k : ℕ) → in_word result k ≡ nat_le k last }
{
    ones(last + 1)
}

// Returns one position of a word, if it is there.
#[inline(always)]
fn only(word: u64, position: usize) -> u64
    requires within { position < 64 }
    ensures only { (k : ℕ) → in_word result k ≡ (in_word word k && k == position) }
{
    both(word, with(0, position))
}

// Returns a word without one of its positions.
#[inline(always)]
fn without_one(word: u64, position: usize) -> u64
    requires within { position < 64 }
    ensures rest { (k : ℕ) → in_word result k ≡ (in_word word k && not (k == position)) }
{
    without(word, with(0, position))
}

/// Returns whether a word has one position, this one.
#[inline(always)]
pub fn is_only(word: u64, position: usize) -> bool
    requires within { position < 64 }
    ensures only { result ≡ true → (k : ℕ) → in_word word k ≡ (k == position) }
{
    word == with(0, position)
}

// Returns where one character of a set leads, on, from one position.
#[inline(always)]
fn step_from(set: &CharSet, text: &[char], from: u64, position: usize) -> u64
    requires short { length text.now < 64 }
    requires only { (k : ℕ) → in_word from k ≡ (k == position) }
    ensures walks { IsImage (leads true (One set.now.spans.items) text.now) (in_word from) (in_word result) }
{
    if takes(set, text, position) {
        with(0, position + 1)
    } else {
        0
    }
}

// Returns where one character of a set leads, on, from each position in turn.
fn steps_on(set: &CharSet, text: &[char], from: u64) -> u64
    requires short { length text.now < 64 }
    ensures walks { IsImage (leads true (One set.now.spans.items) text.now) (in_word from) (in_word result) }
{
    let mut to = 0u64;
    let mut left = from;
    'steps: while let Some(m) = lowest(left, 0) {
        if takes(set, text, m) {
            to = with(to, m + 1);
        }
        left = without_one(left, m);
    }
    to
}

/// Returns where one character of a set leads, on.
#[inline(always)]
pub fn step_on(set: &CharSet, text: &[char], from: u64) -> u64
    requires short { length text.now < 64 }
    ensures walks { IsImage (leads true (One set.now.spans.items) text.now) (in_word from) (in_word result) }
{
    match lowest(from, 0) {
        Some(m) if is_only(from, m) => step_from(set, text, from, m),
        _ => steps_on(set, text, from),
    }
}

/// Returns whether one character of a set leads on anywhere.
pub fn step_reaches(set: &CharSet, text: &[char], from: u64) -> bool
    requires short { length text.now < 64 }
    ensures reaches { Reaches (leads true (One set.now.spans.items) text.now) (length text.now) (in_word from) result }
{
    let mut i = 0;
    'steps: while let Some(m) = next(from, i) {
        if takes(set, text, m) {
            return true;
        }
        i = m + 1;
    }
    false
}

// Returns where a run of characters of one set ends, if it meets none of another.
//
// It returns `None` if it meets one.
#[inline(always)]
fn unmet_end(run: &CharSet, last: &CharSet, text: &[char], from: usize) -> Option<usize>
    ensures met { MatchOption result (Meets run.now.spans.items last.now.spans.items text.now from)
        (λ end. Misses run.now.spans.items last.now.spans.items text.now from end) }
{
    'run: for at in from..text.len() {
        if last.has(text[at]) {
            return None;
        }
        if !run.has(text[at]) {
            return Some(at);
        }
    }
    Some(from.max(text.len()))
}

/// Returns whether any number of characters of a set, and one of another, lead on anywhere.
pub fn run_reaches(run: &CharSet, last: &CharSet, text: &[char], from: u64) -> bool
    requires short { length text.now < 64 }
    ensures reaches { Reaches (Joined (leads true (Repeat 0 None (One run.now.spans.items)) text.now) (leads true (One last.now.spans.items) text.now)) (length text.now) (in_word from) result }
{
    let mut i = 0;
    'search: while let Some(m) = next(from, i) {
        match unmet_end(run, last, text, m) {
            None => return true,
            Some(end) => i = end + 1,
        }
    }
    false
}

// Returns whether there is a character before a position, in a set.
#[inline]
fn takes_back(set: &CharSet, text: &[char], position: usize) -> bool
    ensures yes { result ≡ true → (0 < position) × IsTaken set.now.spans.items text.now (position - 1) }
    ensures no { result ≡ false → 0 < position → ¬ (IsTaken set.now.spans.items text.now (position - 1)) }
{
    0 < position && takes(set, text, position - 1)
}

/// Returns where one character of a set leads, back.
pub fn step_back(set: &CharSet, text: &[char], from: u64) -> u64
    requires short { length text.now < 64 }
    ensures walks { IsImage (leads false (One set.now.spans.items) text.now) (in_word from) (in_word result) }
{
    let mut to = 0u64;
    let mut i = 0;
    'steps: while let Some(m) = next(from, i) {
        if takes_back(set, text, m) {
            to = with(to, m - 1);
        }
        i = m + 1;
    }
    to
}

// Returns where runs of characters of a set lead, on, of a least and a greatest length.
fn runs_on(set: &CharSet, text: &[char], least: usize, most: usize, from: u64) -> u64
    requires short { length text.now < 64 }
    requires ordered { least ≤ most }
    requires few { most < 2 ^ 62 }
    ensures runs { IsImage (RunsFor set.now.spans.items text.now least most) (in_word from) (in_word result) }
{
    let mut to = 0u64;
    let mut end = 0;
    let mut i = 0;
    'steps: while let Some(m) = next(from, i) {
        let start = run_start(m, end);
        let stop = (m + most).min(text.len());
        end = run_end(set, text, start, stop);
        to = with_span(to, m + least, end);
        i = after_run(m, end, most);
    }
    to
}

/// Returns where so many characters of a set lead, on, and up to so many more.
pub fn times_on(set: &CharSet, text: &[char], least: u32, more: Option<u32>, from: u64) -> u64
    requires short { length text.now < 64 }
    ensures walks { IsImage (leads true (Repeat least more (One set.now.spans.items)) text.now) (in_word from) (in_word result) }
{
    let most = most_turns(least, more, text.len());
    runs_on(set, text, least as usize, most, from)
}

// Returns the position after each of a word.
#[inline(always)]
fn moved_on(word: u64) -> u64
    requires room { in_word word 63 ≡ false }
    ensures none { in_word result 0 ≡ false }
    ensures moved { (k : ℕ) → in_word result (k + 1) ≡ in_word word k }
{
    word << 1
}

// Returns where a run ends, and positions with characters of another set.
#[derive(Clone, Copy)]
struct Met {
    end: usize,
    word: u64,
}

// Returns a word with a position, if the character after it is in a set.
#[inline(always)]
fn with_taken(word: u64, set: &CharSet, text: &[char], position: usize) -> u64
    requires short { length text.now < 64 }
    ensures taken { (k : ℕ) → in_word result k ≡ true → (in_word word k ≡ true) ⊎ IsTaken set.now.spans.items text.now k }
    ensures kept { (k : ℕ) → in_word word k ≡ true → in_word result k ≡ true }
    ensures there { IsTaken set.now.spans.items text.now position → in_word result position ≡ true }
{
    if takes(set, text, position) {
        with(word, position)
    } else {
        word
    }
}

// Returns where a run of characters of one set ends, and where it met one of another.
//
// The run ends at the stop at the latest. The positions are put into the word.
#[inline(always)]
fn met_end(
    run: &CharSet,
    other: &CharSet,
    text: &[char],
    from: usize,
    stop: usize,
    word: u64,
) -> Met
    requires short { length text.now < 64 }
    requires within { stop ≤ length text.now }
    ensures goes { GoesOn run.now.spans.items text.now from stop result.end }
    ensures taken { (k : ℕ) → in_word result.word k ≡ true → (in_word word k ≡ true) ⊎ IsTaken other.now.spans.items text.now k }
    ensures kept { (k : ℕ) → in_word word k ≡ true → in_word result.word k ≡ true }
    ensures met { (k : ℕ) → from ≤ k → k ≤ result.end → IsTaken other.now.spans.items text.now k → in_word result.word k ≡ true }
{
    let mut met = word;
    'run: for at in from..stop {
        met = with_taken(met, other, text, at);
        if !run.has(text[at]) {
            return Met { end: at, word: met };
        }
    }
    let end = from.max(stop);
    let word = with_taken(met, other, text, end);
    Met { end, word }
}

// Returns where runs of characters of one set, and then one of another, lead, on.
fn runs_then(
    run: &CharSet,
    last: &CharSet,
    text: &[char],
    least: usize,
    most: usize,
    from: u64,
) -> u64
    requires short { length text.now < 64 }
    requires ordered { least ≤ most }
    requires few { most < 2 ^ 62 }
    ensures leaves { IsImage (Joined (RunsFor run.now.spans.items text.now least most) (leads true (One last.now.spans.items) text.now)) (in_word from) (in_word result) }
{
    let mut to = 0u64;
    let mut met = 0u64;
    let mut end = 0;
    let mut i = 0;
    'steps: while let Some(m) = next(from, i) {
        let start = run_start(m, end);
        let stop = (m + most).min(text.len());
        let seen = met_end(run, last, text, start, stop, met);
        met = seen.word;
        to = with_span(to, m + least, seen.end);
        end = seen.end;
        i = after_run(m, end, most);
    }
    let there = both(to, met);
    moved_on(there)
}

/// Returns where so many characters of a set, and up to so many more, and then one of another lead,
/// on.
pub fn times_then(
    run: &CharSet,
    last: &CharSet,
    text: &[char],
    least: u32,
    more: Option<u32>,
    from: u64,
) -> u64
    requires short { length text.now < 64 }
    ensures leaves { IsImage (Joined (leads true (Repeat least more (One run.now.spans.items)) text.now) (leads true (One last.now.spans.items) text.now)) (in_word from) (in_word result) }
{
    let most = most_turns(least, more, text.len());
    runs_then(run, last, text, least as usize, most, from)
}

// Returns whether a position is in a word, and the character before it in a set.
#[inline]
fn leads_back(set: &CharSet, text: &[char], row: u64, position: usize) -> bool
    requires some { 0 < position }
    requires within { position < 64 }
    ensures yes { result ≡ true → (in_word row position ≡ true) × IsTaken set.now.spans.items text.now (position - 1) }
    ensures no { result ≡ false → in_word row position ≡ true → ¬ (IsTaken set.now.spans.items text.now (position - 1)) }
{
    has(row, position) && takes(set, text, position - 1)
}

/// Returns where any number of characters of a set lead, back.
pub fn run_back(set: &CharSet, text: &[char], from: u64) -> u64
    requires short { length text.now < 64 }
    ensures leaves { IsImage (Steps None (leads false (One set.now.spans.items) text.now)) (in_word from) (in_word result) }
{
    let mut to = from;
    let mut m = text.len();
    'steps: while 0 < m {
        if leads_back(set, text, to, m) {
            to = with(to, m - 1);
        }
        m -= 1;
    }
    to
}

// Returns the positions where an assertion holds, tried at each.
fn keep_each(edge: Edge, text: &[char], forward: bool, from: u64) -> u64
    requires short { length text.now < 64 }
    ensures walks { IsImage (leads forward (At edge) text.now) (in_word from) (in_word result) }
{
    let mut to = 0u64;
    let mut i = 0;
    'steps: while let Some(m) = next(from, i) {
        if is_at(edge, text, m) {
            to = with(to, m);
        }
        i = m + 1;
    }
    to
}

/// Returns the positions where an assertion holds.
pub fn keep_edges(edge: Edge, text: &[char], forward: bool, from: u64) -> u64
    requires short { length text.now < 64 }
    ensures walks { IsImage (leads forward (At edge) text.now) (in_word from) (in_word result) }
{
    match edge {
        Edge::TextStart => only(from, 0),
        Edge::TextEnd => only(from, text.len()),
        _ => keep_each(edge, text, forward, from),
    }
}
