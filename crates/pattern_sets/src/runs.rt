//! Runs of characters of one set.
ghost use Rattle.std.specs.Prelude.{◌≡◌, ◌<◌, ◌≤◌, ◌+◌, ◌^◌, ℕ, length, max};
ghost use Rattle.pattern_sets.specs.Images.{IsTaken};

use pattern_trees::CharSet;

/// Returns where a run that begins at a position is looked at first.
///
/// What lies before the end of an earlier run was looked at.
#[inline(always)]
pub fn run_start(position: usize, end: usize) -> usize
    ensures start { result ≡ max position end }
{
    position.max(end)
}

/// Returns where a run of characters of a set ends, which begins at a position.
///
/// It ends at the stop at the latest.
#[inline(always)]
pub fn run_end(set: &CharSet, text: &[char], from: usize, stop: usize) -> usize
    requires within { stop ≤ length text.now }
    ensures on { from ≤ result }
    ensures taken { (k : ℕ) → from ≤ k → k < result → (k < stop) × IsTaken set.now.spans.items text.now k }
    ensures blocked { result < stop → ¬ (IsTaken set.now.spans.items text.now result) }
{
    'run: for at in from..stop {
        if !set.has(text[at]) {
            return at;
        }
    }
    if from < stop { stop } else { from }
}

/// Returns where to look for the next position after one whose run ends here.
///
/// A run that was blocked before it was as long as it may be also ends the runs from within it.
#[inline(always)]
pub fn after_run(position: usize, end: usize, longest: usize) -> usize
    requires small { position + longest + end < 2 ^ 63 }
    ensures on { position < result }
    ensures within { (k : ℕ) → position < k → k < result → (k ≤ end) × (end < position + longest) }
{
    if position <= end && end < position + longest {
        end + 1
    } else {
        position + 1
    }
}
