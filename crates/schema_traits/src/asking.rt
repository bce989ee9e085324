//! The questions that a keyword asks about an instance, declared up front.
//!
//! A keyword can declare them if the verdict of its run follows from the answers alone.
use crate::ascending::AscendingNames;
use serde_json::{Map, Value};

/// The questions of a keyword's run for the verdict.
///
/// Each variant says how the verdict follows from the answers.
/// The questions are borrowed from the keyword and from the instance, so nothing is looked up
/// again.
#[derive(Clone, Copy)]
pub enum Asking<'s, 'i> {
    /// The keyword's turns ask, and decide the verdict.
    ByTurns,
    /// This many children, at the keyword's own place: all must accept.
    Each(usize),
    /// This many children, at the keyword's own place: one must accept.
    One(usize),
    /// The first child, at each item from this index on: all must be accepted.
    Items(usize, &'i [Value]),
    /// This many children, each at its own item: all must be accepted.
    ///
    /// A child's item is the one with its number as index. Children without an item are not asked.
    Listed(usize, &'i [Value]),
    /// Each child, at the member with its name: all must be accepted.
    ///
    /// The names are in the order of the children. Children without a member are not asked.
    Members(&'s AscendingNames, &'i Map<String, Value>),
    /// The first child, at the name of each member: all must be accepted.
    Names(&'i Map<String, Value>),
    /// A pattern, which must match a text.
    Match(&'s str, &'i str),
}
