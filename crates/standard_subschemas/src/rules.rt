//! The rules for reading documents.
//!
//! A rule is data: the resolver holds it in a field, and the definitions of URIs, names and
//! subschemas take it as a parameter. So the walk, the table, the lookups and their laws are
//! written and proved once for both rules.

/// A rule for reading documents.
#[derive(Clone, Copy)]
pub enum Rule {
    /// A rule with few keywords.
    ///
    /// Identifiers are URIs with a scheme, references are such URIs or fragments, and all drafts
    /// have the same names and subschemas.
    Narrow,
    /// The standard's own rule.
    ///
    /// Identifiers and references are resolved against the base, and each draft has its own
    /// keywords.
    Standard,
}
