//! Pairs of a node and the number of a place, and a count for each place.
ghost use Rattle.std.specs.Prelude.{◌≡◌, ◌<◌, ◌++◌, ◌∷◌, ◌⊎◌, [], ℕ, OnErr, OnOk, length, slice_index_or};
ghost use Rattle.std.specs.Vec.{vec_capacity, vec_len};

use schema_reports::OutOfMemory;
use schema_traits::SchemaNode;
use std::alloc::Global;

/// A node that is evaluated at a place, and the place's number.
#[derive(Drop)]
pub struct NumberedPair {
    pub node: SchemaNode,
    pub place: usize,
}

/// Adds a pair to a vector that has room for it. Allocates nothing.
pub fn push_within(pairs: &mut Vec<NumberedPair>, pair: NumberedPair)
    requires room { vec_len pairs.old < vec_capacity pairs.old }
    ensures pushed { pairs.new.items ≡ pairs.old.items ++ pair ∷ [] }
{
    match pairs.push(pair) {
        Ok(_) => (),
        Err(_) => unreachable!(),
    }
}

/// Adds a count of 0 for each place, unless the counts exist already.
///
/// # Errors
///
/// Out of memory. Then nothing has changed.
pub fn make_counts(alloc: Global, counts: &mut Vec<usize>, places: usize) -> Result<(), OutOfMemory>
    requires sized { (length counts.old.items ≡ 0) ⊎ (length counts.old.items ≡ places) }
    ensures made { OnOk result (length counts.new.items ≡ places) }
    ensures same { (k : ℕ) → slice_index_or counts.new.items k 0 ≡ slice_index_or counts.old.items k 0 }
    ensures unchanged { OnErr result (counts.new.items ≡ counts.old.items) }
{
    if counts.len() == places {
        return Ok(());
    }
    *counts = Vec::from_elem(alloc, 0usize, places)?;
    Ok(())
}

/// Returns the count of a place, or 0 if there is none. Allocates nothing.
pub fn count_at(counts: &[usize], place: usize) -> usize
    ensures count { result ≡ slice_index_or counts.now place 0 }
{
    match counts.get(place) {
        Some(count) => *count,
        None => 0,
    }
}
