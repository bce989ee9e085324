//! What a pattern is read by, and what its characters and counts are.
use unicode::sets::Set;

/// The grammar that a text is read by.
#[derive(Clone, Copy)]
pub struct Grammar {
    /// Whether it is the one of the flag u, and not the older one.
    pub strict: bool,
    /// Whether the spellings of other engines are read too.
    pub extended: bool,
    /// Whether a group of the text has a name.
    pub named: bool,
    /// The number of groups in the text.
    pub groups: usize,
}

/// The flags that hold at a place in a pattern.
#[derive(Clone, Copy)]
pub struct Flags {
    /// The flag i.
    pub ignore_case: bool,
    /// The flag s.
    pub dot_all: bool,
    /// The flag m.
    pub multiline: bool,
}

/// A set of characters with a letter of its own: `\d`, `\s` or `\w`.
#[derive(Clone, Copy)]
pub enum Letter {
    /// `\d`
    Digits,
    /// `\s`
    Spaces,
    /// `\w`
    Words,
}

/// What an escape or a part of a class stands for.
#[derive(Clone, Copy)]
pub enum Member {
    /// One character.
    One(u32),
    /// The characters of a letter's set, or the others.
    Of(Letter, bool),
    /// The characters that have a property, or the others.
    With(Set, bool),
}

/// How often a quantifier repeats its body.
#[derive(Clone, Copy)]
pub struct Count {
    /// The least number of turns.
    pub min: u32,
    /// The greatest number of turns, if there is one.
    pub max: Option<u32>,
}
