//! Repetitions of repetitions.
ghost use Rattle.std.specs.Prelude.{◌≡◌, ◌≢◌, ◌≤◌, ◌<◌, ◌+◌, ◌*◌, ◌-◌, ◌⊎◌, IfSome, Some, option_map, true};
ghost use Rattle.pattern_trees.specs.Patterns.{Pattern};
ghost use Rattle.pattern_sets.specs.Alike.{AreAlike, repeat_of};

use crate::turns::more_turns;
use pattern_trees::Turns;

// Returns whether one repetition more adds turns where those before it end.
fn is_in_reach(count: u32, least: u32, more: u32) -> bool
    ensures reach { result ≡ true → least ≤ count * more + 1 }
{
    least as u64 <= count as u64 * more as u64 + 1
}

// Returns how many turns so many repetitions have at least.
fn least_turns(count: u32, least: u32) -> Option<u32>
    ensures least { IfSome result (λ turns. turns ≡ count * least) }
{
    count.checked_mul(least)
}

// Returns how many turns so many repetitions have at most.
fn all_turns(count: u32, more: u32, least: u32, extra: u32) -> Option<u32>
    ensures all { IfSome result (λ turns. turns ≡ (count + more) * (least + extra)) }
{
    count
        .checked_add(more)?
        .checked_mul(least.checked_add(extra)?)
}

// Returns whether bounded repetitions leave out no number of turns between two that they take.
fn has_no_gap(count: u32, more: u32, least: u32, extra: u32) -> bool
    ensures gap { result ≡ true → (more ≡ 0) ⊎ (least ≤ count * extra + 1) }
{
    more == 0 || is_in_reach(count, least, extra)
}

// Returns whether any number of repetitions take any number of turns from some number on.
fn goes_on(count: u32, least: u32, extra: u32) -> bool
    ensures some { result ≡ true → 0 < least + extra }
    ensures reach { result ≡ true → least ≤ count * extra + 1 }
{
    (least > 0 || extra > 0) && is_in_reach(count, least, extra)
}

// Returns whether repetitions of any number of turns take any number from some number on.
fn is_open(count: u32, more: Option<u32>, least: u32) -> bool
    ensures some { result ≡ true → (0 < count) ⊎ ((least ≤ 1) × (more ≢ Some 0)) }
{
    count > 0 || (least <= 1 && more != Some(0))
}

/// Returns the one quantifier that repeats as one quantifier of another does, if there is one.
///
/// There is none if a number of turns is left out between two that they take.
pub fn folded(outer: Turns, inner: Turns) -> Option<Turns>
    ensures alike { IfSome result (λ t. (p : Pattern) → AreAlike (repeat_of outer (repeat_of inner p)) (repeat_of t p)) }
{
    let min = least_turns(outer.min, inner.min)?;
    let more = more_turns(&outer);
    let Some(extra) = more_turns(&inner) else {
        if !is_open(outer.min, more, inner.min) {
            return None;
        }
        return Some(Turns {
            min,
            max: None,
            ..inner
        });
    };
    let Some(more) = more else {
        if !goes_on(outer.min, inner.min, extra) {
            return None;
        }
        return Some(Turns {
            min,
            max: None,
            ..inner
        });
    };
    if !has_no_gap(outer.min, more, inner.min, extra) {
        return None;
    }
    let max = all_turns(outer.min, more, inner.min, extra)?;
    Some(Turns {
        min,
        max: Some(max),
        ..inner
    })
}
