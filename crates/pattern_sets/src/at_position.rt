//! What holds at one position of a text.
ghost use Rattle.std.specs.Prelude.{◌≡◌, ◌&&◌, nat_lt, length, slice_index, true, false};
ghost use Rattle.pattern_trees.specs.Patterns.{IsAt, ends_line, is_line_end, is_word, starts_line, word_after, word_before};
ghost use Rattle.pattern_sets.specs.Images.{IsTaken};

use pattern_trees::{CharSet, Edge};

/// Returns whether the character after a position is in a set.
#[inline(always)]
pub fn takes(set: &CharSet, text: &[char], position: usize) -> bool
    ensures yes { result ≡ true → IsTaken set.now.spans.items text.now position }
    ensures no { result ≡ false → ¬ (IsTaken set.now.spans.items text.now position) }
{
    position < text.len() && set.has(text[position])
}

/// Returns whether an assertion holds at a position.
pub fn is_at(edge: Edge, text: &[char], position: usize) -> bool
    ensures yes { result ≡ true → IsAt edge text.now position }
    ensures no { result ≡ false → ¬ (IsAt edge text.now position) }
{
    match edge {
        Edge::TextStart => position == 0,
        Edge::TextEnd => position == text.len(),
        Edge::LineStart => starts_line(text, position),
        Edge::LineEnd => ends_line(text, position),
        Edge::WordEdge => is_word_before(text, position) != is_word_after(text, position),
        Edge::NoWordEdge => is_word_before(text, position) == is_word_after(text, position),
    }
}

// Returns whether a character is a word character.
fn is_word(c: char) -> bool
    ensures word { result ≡ is_word c }
{
    let c = c as u32;
    (48 <= c && c <= 57) || (65 <= c && c <= 90) || c == 95 || (97 <= c && c <= 122)
}

// Returns whether a word character stands after a position.
fn is_word_after(text: &[char], position: usize) -> bool
    ensures word { result ≡ word_after text.now position }
{
    position < text.len() && is_word(text[position])
}

// Returns whether a word character stands before a position.
fn is_word_before(text: &[char], position: usize) -> bool
    ensures word { result ≡ word_before text.now position }
{
    0 < position && is_word_after(text, position - 1)
}

// Returns whether a character ends a line.
fn is_line_end(c: char) -> bool
    ensures ends { result ≡ is_line_end c }
{
    let c = c as u32;
    c == 10 || c == 13 || (8232 <= c && c <= 8233)
}

// Returns whether a character that ends a line stands at a position.
fn has_line_end(text: &[char], position: usize) -> bool
    ensures ends { result ≡ (nat_lt position (length text.now) && is_line_end (slice_index text.now position)) }
{
    position < text.len() && is_line_end(text[position])
}

// Returns whether a line starts at a position.
fn starts_line(text: &[char], position: usize) -> bool
    ensures starts { result ≡ starts_line text.now position }
{
    position == 0 || has_line_end(text, position - 1)
}

// Returns whether a line ends at a position.
fn ends_line(text: &[char], position: usize) -> bool
    ensures ends { result ≡ ends_line text.now position }
{
    position == text.len() || has_line_end(text, position)
}
