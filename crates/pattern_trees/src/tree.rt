//! The tree of a pattern (ECMA-262, 22.2.1).

use crate::char_set::CharSet;

/// An assertion about a position that looks at no more than its two neighbours.
#[derive(Clone, Copy)]
pub enum Edge {
    /// `^`
    TextStart,
    /// `$`
    TextEnd,
    /// `^` under the flag m.
    LineStart,
    /// `$` under the flag m.
    LineEnd,
    /// `\b`
    WordEdge,
    /// `\B`
    NoWordEdge,
}

/// How often a quantifier repeats its body.
#[derive(Clone, Copy)]
pub struct Turns {
    /// The least number of turns.
    pub min: u32,
    /// The greatest number of turns, if there is one.
    pub max: Option<u32>,
    /// Whether more turns are tried before fewer.
    pub greedy: bool,
    /// The number of groups before the body.
    pub groups_before: u32,
    /// The number of groups in the body.
    pub group_count: u32,
}

/// The part of a text that a group captured.
#[derive(Clone, Copy)]
pub struct Span {
    /// The position before its first character.
    pub start: usize,
    /// The position after its last character.
    pub stop: usize,
}

/// What a lookaround looks for, and where.
#[derive(Clone, Copy)]
pub struct Look {
    /// Whether it looks ahead, and not behind.
    pub ahead: bool,
    /// Whether it wants a match, and not that there is none.
    pub wanted: bool,
}

/// A pattern. Its groups are numbered from 0, in the order of their opening brackets.
#[derive(Drop)]
pub enum Tree {
    /// The empty pattern.
    Nothing,
    /// One character of a set.
    OneOf(CharSet),
    /// `^`, `$`, `\b` or `\B`.
    At(Edge),
    /// A back reference: the text that this group captured last.
    Reference(usize),
    /// A group that captures.
    Group(usize, Box<Tree>),
    /// A lookaround.
    Around(Look, Box<Tree>),
    /// A quantifier.
    Times(Turns, Box<Tree>),
    /// One pattern after the other.
    Pair(Box<Tree>, Box<Tree>),
    /// One pattern or the other.
    Choice(Box<Tree>, Box<Tree>),
}
