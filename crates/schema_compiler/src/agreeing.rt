//! Laws of compilations, and of the steps that find keys.
//!
//! They hold for all parts. Each function states one law and does nothing.

ghost use Rattle.std.specs.Prelude.{ℕ};
ghost use Rattle.schema_compiler.specs.Agreeing.{OneOrder, TablesAgree};
ghost use Rattle.schema_compiler.specs.Nesting.{NestsWithin, SettledByEdges};
ghost use Rattle.theory_definitions.specs.Parts.{Parts};

/// States that the keys that a root reaches are found in exactly one order.
///
/// It also determines how each number gets its form.
pub fn keys_are_found_in_one_order<S, K, R>()
    ensures one_order { (w : Parts S K R) → OneOrder w }
{}

/// States that two compilations of one root agree.
///
/// If they allow the same number of nested targets, they give the same numbers to the same keys,
/// guard the same edges, and run alike, whatever their keywords are made of.
pub fn tables_agree<S, K, R, C, D>()
    ensures agree { (w : Parts S K R) (shape : C → K) (other : D → K) → TablesAgree w shape other }
{}

/// States that no more targets of references are nested than the limit allows.
pub fn targets_nest_within_the_limit<S, K, R>()
    ensures within { (w : Parts S K R) (nested : ℕ) → NestsWithin w nested }
{}

/// States that a number is final if and only if its edges led to final numbers.
///
/// These are the edges that its key requests, and a target counts if it was final when the edge was
/// made.
pub fn numbers_are_settled_by_edges<S, K, R>()
    ensures settled { (w : Parts S K R) (nested : ℕ) → SettledByEdges w nested }
{}
