//! The errors of a result, indexed by hash.
//!
//! The key of an error is its three paths and its text.
ghost use Rattle.std.specs.Prelude.{◌≡◌, IfOk, bytes_eq, map, nat_eq};
ghost use Rattle.schema_reports.specs.Showing.{Yields};
ghost use Rattle.std.specs.HashMap.{get};
ghost use Rattle.unfinished_matches.specs.HashIndex.{IsIndexed};
ghost use Rattle.unfinished_search.specs.KeyHashes.{key_hash};
ghost use Rattle.theory_definitions.specs.Pointer.{pointer_to};
ghost use Rattle.unfinished_search.specs.SharedResults.{has_key, in_each_of, same_key};

use schema_reports::{OutOfMemory, Place, ValidationError};
use std::alloc::Global;
use std::collections::HashMap;
use std::hash::{FoldHasher, Hasher};
use std::marker::Model;
use unfinished_matches::add_position;

/// The errors of a result, in order. Contracts see the list.
#[derive(Drop)]
pub(super) struct KeyedErrors<'i> {
    errors: Vec<ValidationError<'i>>,
    // The first position of each hash of a key.
    positions: HashMap<u64, usize>,
}

impl<'i> Model for KeyedErrors<'i> {
    ghost use Rattle.std.specs.Prelude.{List, map, nat_eq};
    ghost use Rattle.std.specs.HashMap.{get};
    ghost use Rattle.unfinished_matches.specs.HashIndex.{IsIndexed};
    ghost use Rattle.unfinished_search.specs.KeyHashes.{key_hash};
    ghost use Rattle.schema_reports.specs.declared.reports.ValidationError.{ValidationError};
    ghost use Rattle.std.specs.Coded.{codes};
    ghost use Rattle.serde_json.specs.contracts.value.Value as e;

    ghost Value = { List ValidationError };

    ghost coded = { Prim.hlevel (codes, e.the_row.coded) };

    ghost view = { λ k. k.errors.items };

    ghost invariant = { λ k. IsIndexed (map key_hash k.errors.items) (get nat_eq k.positions) };
}

#[tactic(auto, unfolding(crate::specs::KeyHashes::hash_of_key))]
fn key_hash(alloc: Global, error: &ValidationError<'_>) -> Result<u64, OutOfMemory>
    ensures hash { Yields result (key_hash error.now) }
{
    let instance_path = error.instance_path(alloc)?;
    let mut hasher = FoldHasher::default();
    hasher.write(instance_path.as_str().as_bytes());
    drop(instance_path);
    hasher.write(error.schema_path.as_str().as_bytes());
    hasher.write(error.evaluation_path.as_str().as_bytes());
    hasher.write(error.text.as_bytes());
    Ok(hasher.finish())
}

// Returns the positions of these errors by the hashes of their keys.
fn positions(
    alloc: Global,
    errors: &[ValidationError<'_>],
) -> Result<HashMap<u64, usize>, OutOfMemory>
    ensures indexed { IfOk result (λ p. IsIndexed (map key_hash errors.now) (get nat_eq p)) }
{
    let mut positions = HashMap::new(alloc);
    for (i, error) in errors.iter().enumerate() {
        add_position(&mut positions, key_hash(alloc, error)?, i)?;
    }
    Ok(positions)
}

// Different places may have one pointer, since the place of a name has the pointer of its object.
fn have_one_pointer(alloc: Global, one: &Place<'_>, other: &Place<'_>) -> Result<bool, OutOfMemory>
    ensures same { Yields result (bytes_eq (pointer_to one.now) (pointer_to other.now)) }
{
    if one == other {
        return Ok(true);
    }
    let one = one.pointer(alloc)?;
    let other = other.pointer(alloc)?;
    let same = one.as_str() == other.as_str();
    drop((one, other));
    Ok(same)
}

// Compares what is cheap first.
fn is_same_key(
    alloc: Global,
    one: &ValidationError<'_>,
    other: &ValidationError<'_>,
) -> Result<bool, OutOfMemory>
    ensures same { Yields result (same_key one.now other.now) }
{
    if one.text.as_str() != other.text.as_str()
        || one.schema_path.as_str() != other.schema_path.as_str()
        || one.evaluation_path.as_str() != other.evaluation_path.as_str()
    {
        return Ok(false);
    }
    have_one_pointer(alloc, &one.place, &other.place)
}

fn has_key_of(
    alloc: Global,
    errors: &[ValidationError<'_>],
    error: &ValidationError<'_>,
) -> Result<bool, OutOfMemory>
    ensures has { Yields result (has_key errors.now error.now) }
{
    for (i, one) in errors.iter().enumerate() {
        if is_same_key(alloc, error, one)? {
            return Ok(true);
        }
    }
    Ok(false)
}

impl<'i> KeyedErrors<'i> {
    fn new(alloc: Global, errors: Vec<ValidationError<'i>>) -> Result<KeyedErrors<'i>, OutOfMemory>
        ensures same { Yields result errors.entry.items }
    {
        match positions(alloc, &errors) {
            Ok(positions) => Ok(KeyedErrors { errors, positions }),
            Err(error) => {
                drop(errors);
                Err(error)
            }
        }
    }

    // Returns whether one of the errors has the same key as this one, whose key has this hash.
    fn contains(
        &self,
        alloc: Global,
        error: &ValidationError<'_>,
        hash: u64,
    ) -> Result<bool, OutOfMemory>
        requires hash { hash ≡ key_hash error.now }
        ensures has { Yields result (has_key self.now error.now) }
    {
        match self.positions.get(&hash) {
            Some(position) => {
                if is_same_key(alloc, error, &self.errors[*position])? {
                    Ok(true)
                } else {
                    has_key_of(alloc, &self.errors, error)
                }
            }
            None => Ok(false),
        }
    }
}

/// Indexes the errors of each result by their keys.
pub(super) fn keyed<'i>(
    alloc: Global,
    results: Vec<Vec<ValidationError<'i>>>,
) -> Result<Vec<KeyedErrors<'i>>, OutOfMemory>
    ensures same { IfOk result (λ k. k.items ≡ map (λ r. r.items) results.entry.items) }
{
    let mut keyed = Vec::new(alloc);
    for errors in results {
        keyed.push(KeyedErrors::new(alloc, errors)?)?;
    }
    Ok(keyed)
}

/// Returns whether each result has an error with the same key.
pub(super) fn is_in_each(
    alloc: Global,
    results: &[KeyedErrors<'_>],
    error: &ValidationError<'_>,
) -> Result<bool, OutOfMemory>
    ensures each { Yields result (in_each_of results.now error.now) }
{
    let hash = key_hash(alloc, error)?;
    for (i, errors) in results.iter().enumerate() {
        if !errors.contains(alloc, error, hash)? {
            return Ok(false);
        }
    }
    Ok(true)
}
