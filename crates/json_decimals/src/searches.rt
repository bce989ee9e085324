//! A search for the place at which a test turns.
ghost use Rattle.std.specs.Prelude.{◌⊎◌, ◌≡◌, ◌+◌, ◌-◌, ◌<◌, ◌≤◌, true, false};
ghost use Rattle.json_decimals.specs.Searches.{IsBracket};

/// Two places: the test holds at the lower one, or it is the first, and fails at the higher one, or
/// it is the end.
#[derive(Clone, Copy)]
pub(crate) struct Bracket {
    low: u64,
    high: u64,
}

/// Narrows a bracket by the test at a place inside it.
fn narrowed<F: Fn(u64) -> bool>(test: &F, bracket: Bracket, place: u64) -> Bracket
    requires callable { F.IsAlwaysCallable test.now }
    ensures bracket { (first : _) → (end : _) → IsBracket (F.post test.now) first end bracket
        → IsBracket (F.post test.now) first end result }
    ensures shorter { bracket.low < place → place < bracket.high
        → result.high - result.low < bracket.high - bracket.low }
{
    if place <= bracket.low || bracket.high <= place {
        return bracket;
    }
    if test(place) {
        Bracket {
            low: place,
            ..bracket
        }
    } else {
        Bracket {
            high: place,
            ..bracket
        }
    }
}

/// Returns the last place before the test turns from true to false.
///
/// The guess and its neighbors are tried first.
pub(crate) fn last_before<F: Fn(u64) -> bool>(test: F, end: u64, guess: u64) -> u64
    requires callable { F.IsAlwaysCallable test }
    requires some { 0 < end }
    ensures within { result < end }
    ensures holds { (result ≡ 0) ⊎ F.post test result true }
    ensures fails { (result + 1 ≡ end) ⊎ F.post test (result + 1) false }
{
    let mut bracket = Bracket { low: 0, high: end };
    bracket = narrowed(&test, bracket, guess);
    bracket = narrowed(&test, bracket, guess.saturating_add(1));
    bracket = narrowed(&test, bracket, guess.saturating_sub(1));
    while bracket.high - bracket.low > 1 {
        let middle = bracket.low + (bracket.high - bracket.low) / 2;
        bracket = narrowed(&test, bracket, middle);
    }
    bracket.low
}
