//! The characters of a text.
ghost use Rattle.std.specs.Prelude.{◌≡◌, ◌+◌, ◌<◌, ◌^◌, slice_get};
ghost use Rattle.pattern_trees.specs.Matching.{next_char, same_char, same_chars};

/// Returns the character that is passed over next, ahead or back.
pub fn next_char(ahead: bool, s: &[char], place: usize) -> Option<char>
    ensures char { result ≡ next_char ahead s.now place }
{
    if ahead {
        return s.get(place).copied();
    }
    if place == 0 {
        return None;
    }
    s.get(place - 1).copied()
}

// Returns whether the characters after two places are the same.
fn is_same_char(s: &[char], i: usize, j: usize) -> bool
    ensures same { result ≡ same_char (slice_get s.now i) (slice_get s.now j) }
{
    match (s.get(i), s.get(j)) {
        (None, None) => true,
        (Some(a), Some(b)) => *a == *b,
        (_, _) => false,
    }
}

/// Returns whether so many characters after one place are those after another.
pub fn are_same_chars(s: &[char], count: usize, i: usize, j: usize) -> bool
    requires first { i + count < 2 ^ 64 }
    requires second { j + count < 2 ^ 64 }
    ensures same { result ≡ same_chars count s.now i j }
{
    for k in 0..count {
        if !is_same_char(s, i + k, j + k) {
            return false;
        }
    }
    true
}
