//! An index of a list by hash: the first position of each hash.
//!
//! The list itself is kept beside its index, and is searched from the first position of a hash on
//! if two elements have the same hash. So no law about the hash is needed.
ghost use Rattle.std.specs.Prelude.{◌≡◌, ◌≤◌, ◌+◌, OnErr, OnOk, length, nat_eq, vec_capacity, vec_len};
ghost use Rattle.std.specs.HashMap.{get};
ghost use Rattle.unfinished_matches.specs.MatchViews.{pair_of};
ghost use Rattle.unfinished_matches.specs.HashIndex.{IndexesNext, StaysIndexed, match_hash};

use schema_reports::OutOfMemory;
use std::collections::HashMap;
use std::hash::{FoldHasher, Hasher};

/// Records the position of the next element, unless an earlier one has its hash.
///
/// On `Err` nothing has changed.
pub fn add_position(
    positions: &mut HashMap<u64, usize>,
    hash: u64,
    position: usize,
) -> Result<(), OutOfMemory>
    ensures added { OnOk result (IndexesNext (get nat_eq positions.old) hash position (get nat_eq positions.new)) }
    ensures unchanged { OnErr result (StaysIndexed (get nat_eq positions.old) (get nat_eq positions.new)) }
{
    if positions.get(&hash).is_none() {
        positions.insert(hash, position)?;
    }
    Ok(())
}

/// Records the position of the next element, and reserves capacity for it.
///
/// On `Err` nothing has changed.
pub fn reserve_next<T>(
    elements: &mut Vec<T>,
    positions: &mut HashMap<u64, usize>,
    hash: u64,
) -> Result<(), OutOfMemory>
    ensures elements { elements.new.items ≡ elements.old.items }
    ensures room { OnOk result (vec_len elements.new + 1 ≤ vec_capacity elements.new) }
    ensures added { OnOk result (IndexesNext (get nat_eq positions.old) hash (length elements.old.items) (get nat_eq positions.new)) }
    ensures unchanged { OnErr result (StaysIndexed (get nat_eq positions.old) (get nat_eq positions.new)) }
{
    elements.reserve(1)?;
    add_position(positions, hash, elements.len())
}

/// Returns the hash by which a match is found.
#[tactic(auto, unfolding(crate::specs::HashIndex::hash_of_match))]
pub fn match_hash(pattern: &str, subject: &str) -> u64
    ensures hash { result ≡ match_hash (pair_of pattern.now subject.now) }
{
    let mut hasher = FoldHasher::default();
    hasher.write(pattern.as_bytes());
    hasher.write(subject.as_bytes());
    hasher.finish()
}
