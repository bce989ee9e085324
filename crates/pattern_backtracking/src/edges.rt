//! What holds at a place of a text (ECMA-262, 22.2.2.4).
ghost use Rattle.std.specs.Prelude.{◌≡◌, ◌&&◌, nat_lt, length, slice_index};
ghost use Rattle.pattern_trees.specs.Matching.{holds_at, is_boundary};
ghost use Rattle.pattern_trees.specs.Patterns.{ends_line, is_line_end, is_word, starts_line, word_after, word_before};

use pattern_trees::Edge;

/// Returns whether an edge holds at a place.
pub fn holds_at(edge: Edge, s: &[char], place: usize) -> bool
    ensures holds { result ≡ holds_at edge s.now place }
{
    match edge {
        Edge::TextStart => place == 0,
        Edge::TextEnd => place == s.len(),
        Edge::LineStart => starts_line(s, place),
        Edge::LineEnd => ends_line(s, place),
        Edge::WordEdge => is_boundary(s, place),
        Edge::NoWordEdge => !is_boundary(s, place),
    }
}

// Returns whether a word starts or ends at a place.
fn is_boundary(s: &[char], place: usize) -> bool
    ensures boundary { result ≡ is_boundary s.now place }
{
    let after = is_word_after(s, place);
    if is_word_before(s, place) {
        !after
    } else {
        after
    }
}

// Returns whether a character is a word character.
fn is_word(c: char) -> bool
    ensures word { result ≡ is_word c }
{
    let c = c as u32;
    (48 <= c && c <= 57) || (65 <= c && c <= 90) || c == 95 || (97 <= c && c <= 122)
}

// Returns whether a word character stands after a place.
fn is_word_after(s: &[char], place: usize) -> bool
    ensures word { result ≡ word_after s.now place }
{
    place < s.len() && is_word(s[place])
}

// Returns whether a word character stands before a place.
fn is_word_before(s: &[char], place: usize) -> bool
    ensures word { result ≡ word_before s.now place }
{
    0 < place && is_word_after(s, place - 1)
}

// Returns whether a character ends a line.
fn is_line_end(c: char) -> bool
    ensures ends { result ≡ is_line_end c }
{
    let c = c as u32;
    c == 10 || c == 13 || (8232 <= c && c <= 8233)
}

// Returns whether a character that ends a line stands after a place.
fn has_line_end(s: &[char], place: usize) -> bool
    ensures ends { result ≡ (nat_lt place (length s.now) && is_line_end (slice_index s.now place)) }
{
    place < s.len() && is_line_end(s[place])
}

// Returns whether a line starts at a place.
fn starts_line(s: &[char], place: usize) -> bool
    ensures starts { result ≡ starts_line s.now place }
{
    place == 0 || has_line_end(s, place - 1)
}

// Returns whether a line ends at a place.
fn ends_line(s: &[char], place: usize) -> bool
    ensures ends { result ≡ ends_line s.now place }
{
    place == s.len() || has_line_end(s, place)
}
