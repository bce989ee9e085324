//! Distinctness of the items of a list (JSON Schema Validation 2020-12, 6.4.3).
//!
//! If all items are numbers or all are texts, the test takes n steps in the usual case and n log n
//! at worst.
ghost use Rattle.std.specs.Prelude.{◌≡◌, ◌<◌, ◌↔◌, IfOk, IfSome, IsTrue, length, map, take, vec_len};
ghost use Rattle.std.specs.List.{IsDistinct};
ghost use Rattle.serde_json.specs.View.{items_view, number_view};
ghost use Rattle.json_values.specs.Equality.{all_distinct};
ghost use Rattle.json_values.specs.Keys.{IsMarked, is_shared, slot_of};
ghost use Rattle.json_values.specs.Keys.{key_of_float, key_of_number, key_of_text, keyed_number, keyed_text, keyed_value};

use crate::OutOfMemory;
use crate::equality::are_all_distinct_by_pairs;
use crate::numbers::{compare, is_same_number};
use serde_json::{Number, Value};
use std::alloc::Global;
use std::cmp::Ordering;
use std::hash::{FoldHasher, Hasher};
use std::marker::Model;

/// Lists of at most this many items are compared by pairs.
const FEW: usize = 8;

/// An odd factor that mixes the bits of keys.
const MIXER: u64 = 0x9e37_79b9_7f4a_7c15;

/// The number of slots for each item.
const SLOTS_AN_ITEM: usize = 8;

/// The mark of a slot that no key has.
const NONE: u8 = 0;

/// The mark of a slot that one key has.
const ONE: u8 = 1;

/// The mark of a slot that more than one key has.
const MORE: u8 = 2;

/// A number, ordered by its exact value. Contracts see the number.
#[derive(Drop)]
struct OrderedNumber {
    number: Number,
}

impl Model for OrderedNumber {
    ghost use Rattle.serde_json.specs.Data.{Num};
    ghost use Rattle.serde_json.specs.View.{number_view};

    ghost Value = { Num };

    ghost view = { λ k. number_view k.number };
}

impl PartialEq for OrderedNumber {
    ghost use Rattle.std.specs.Cmp.{eq_by_cmp_equiv, partial_equiv_from_equiv};
    ghost use Rattle.json_values.specs.Numbers.{same_number};
    ghost use Rattle.json_values.specs.Order.{order_total};

    ghost eq = { same_number };

    ghost laws = { partial_equiv_from_equiv (eq_by_cmp_equiv order_total) };

    fn eq(&self, other: &OrderedNumber) -> bool {
        is_same_number(&self.number, &other.number)
    }
}

impl Eq for OrderedNumber {
    ghost use Rattle.std.specs.Cmp.{eq_by_cmp_equiv};
    ghost use Rattle.json_values.specs.Order.{order_total};

    ghost laws = { eq_by_cmp_equiv order_total };
}

impl PartialOrd for OrderedNumber {
    ghost use Rattle.std.specs.Prelude.{Some};
    ghost use Rattle.std.specs.Cmp.{partial_order_from_total};
    ghost use Rattle.json_values.specs.Numbers.{order};
    ghost use Rattle.json_values.specs.Order.{order_total};

    ghost partial_cmp = { λ x y. Some (order x y) };

    ghost laws = { partial_order_from_total order_total };

    fn partial_cmp(&self, other: &OrderedNumber) -> Option<Ordering> {
        Some(compare(&self.number, &other.number))
    }
}

impl Ord for OrderedNumber {
    ghost use Rattle.std.specs.Prelude.{refl};
    ghost use Rattle.json_values.specs.Numbers.{order};
    ghost use Rattle.json_values.specs.Order.{order_total};

    ghost cmp = { order };

    ghost total = { order_total };

    ghost matches_partial_cmp = { λ x y. refl };

    ghost matches_eq = { λ x y. refl };

    fn cmp(&self, other: &OrderedNumber) -> Ordering {
        compare(&self.number, &other.number)
    }
}

/// Sorts the items to find out whether no two are equal.
fn are_distinct_by_sorting<T: Ord>(items: &mut [T]) -> bool
    ensures distinct { IsTrue result ↔ IsDistinct T.eq items.old }
{
    items.sort_unstable();
    for later in 1..items.len() {
        if items[later - 1] == items[later] {
            return false;
        }
    }
    true
}

/// Returns the slot of a key.
///
/// The key is mixed first, so that the slots of nearby keys are far apart.
#[tactic(auto, unfolding(crate::specs::Keys::slot_of))]
fn slot_of(key: u64, slots: usize) -> usize
    ensures slot { result ≡ slot_of key slots }
    ensures within { 0 < slots → result < slots }
{
    let mixed = key.wrapping_mul(MIXER);
    ((mixed as u128 * slots as u128) >> 64) as usize
}

/// Marks each slot as that of no key, of one key, or of several keys.
fn count_slots<T>(alloc: Global, keyed: &[(u64, T)]) -> Result<Vec<u8>, OutOfMemory>
    ensures marked { IfOk result (λ met. IsMarked met.items (map (λ k. k.0) keyed.now) (length keyed.now)) }
{
    let mut met = vec![in alloc; NONE; keyed.len().saturating_mul(SLOTS_AN_ITEM)]?;
    for item in keyed {
        let slot = slot_of(item.0, met.len());
        let mark = if met[slot] == NONE { ONE } else { MORE };
        met[slot] = mark;
    }
    Ok(met)
}

fn is_shared(met: &[u8], key: u64) -> bool
    ensures { result ≡ is_shared met.now key }
{
    match met.get(slot_of(key, met.len())) {
        Some(count) => *count == MORE,
        None => false,
    }
}

/// Returns whether no two of the keyed items are equal.
///
/// An item whose slot no other item has equals none. The other items are sorted: usually few, at
/// worst all of them.
fn are_distinct_by_slots<T: Ord + Drop>(
    alloc: Global,
    mut keyed: Vec<(u64, T)>,
) -> Result<bool, OutOfMemory>
    ensures distinct { IfOk result (λ distinct. IsTrue distinct ↔ IsDistinct ⟦<(u64, T) as PartialEq>⟧.eq keyed.items) }
{
    let met = count_slots(alloc, &keyed)?;
    keyed.retain(|item| is_shared(&met, item.0));
    Ok(are_distinct_by_sorting(&mut keyed))
}

/// Returns a hash: equal texts share it, and most other texts do not.
#[tactic(auto, unfolding(crate::specs::Keys::key_of_text))]
fn key_of_text(text: &str) -> u64
    ensures key { result ≡ key_of_text text.now }
{
    let mut hasher = FoldHasher::default();
    hasher.write(text.as_bytes());
    hasher.finish()
}

/// Returns the texts before the first other value, each with its key.
fn keyed_texts<'a>(alloc: Global, values: &'a [Value]) -> Result<Vec<(u64, &'a str)>, OutOfMemory>
    ensures texts { IfOk result (λ keyed. map keyed_text keyed.items ≡ map keyed_value (take (vec_len keyed) values.now)) }
{
    let mut keyed = Vec::with_capacity(alloc, values.len())?;
    for value in values {
        let Some(text) = value.as_str() else {
            return Ok(keyed);
        };
        keyed.push((key_of_text(text), text))?;
    }
    Ok(keyed)
}

/// Returns whether the values are distinct, if texts decide it.
///
/// They do if all values are texts, or if two texts at the front are equal.
fn are_distinct_texts(alloc: Global, values: &[Value]) -> Result<Option<bool>, OutOfMemory>
    ensures distinct { IfOk result (λ answer. IfSome answer (λ distinct. distinct ≡ all_distinct (items_view values.now))) }
{
    let keyed = keyed_texts(alloc, values)?;
    let all = keyed.len() == values.len();
    let distinct = are_distinct_by_slots(alloc, keyed)?;
    if distinct && !all {
        return Ok(None);
    }
    Ok(Some(distinct))
}

/// Returns a key that equal floats share: their bits, and those of 0.0 for -0.0.
fn key_of_float(x: f64) -> u64
    ensures key { result ≡ key_of_float x }
{
    if x.is_nan() {
        return 1 << 63;
    }
    let bits = x.to_bits();
    if bits == 1 << 63 { 0 } else { bits }
}

/// Returns a key that equal numbers share: that of the nearest float.
fn key_of_number(number: &Number) -> u64
    ensures key { result ≡ key_of_number (number_view number.now) }
{
    match number.as_f64() {
        Some(x) => key_of_float(x),
        None => 0,
    }
}

/// Returns the numbers before the first other value, each with its key.
fn keyed_numbers(alloc: Global, values: &[Value]) -> Result<Vec<(u64, OrderedNumber)>, OutOfMemory>
    ensures numbers { IfOk result (λ keyed. map keyed_number keyed.items ≡ map keyed_value (take (vec_len keyed) values.now)) }
{
    let mut keyed = Vec::with_capacity(alloc, values.len())?;
    for value in values {
        let Some(number) = value.as_number() else {
            return Ok(keyed);
        };
        keyed.push((key_of_number(number), OrderedNumber { number: *number }))?;
    }
    Ok(keyed)
}

/// Returns whether the values are distinct, if numbers decide it.
///
/// They do if all values are numbers, or if two numbers at the front are equal.
fn are_distinct_numbers(alloc: Global, values: &[Value]) -> Result<Option<bool>, OutOfMemory>
    ensures distinct { IfOk result (λ answer. IfSome answer (λ distinct. distinct ≡ all_distinct (items_view values.now))) }
{
    let keyed = keyed_numbers(alloc, values)?;
    let all = keyed.len() == values.len();
    let distinct = are_distinct_by_slots(alloc, keyed)?;
    if distinct && !all {
        return Ok(None);
    }
    Ok(Some(distinct))
}

/// Returns whether no two of the values are equal, as `uniqueItems` requires.
///
/// If all values are numbers or all are texts, this takes n steps in the usual case, and n log n at
/// worst, even for values that an attacker chose. Otherwise it takes up to n² calls of `is_equal`,
/// unless two numbers or two texts at the front are equal. Lists of booleans and nulls end within
/// the first few items.
///
/// # Errors
///
/// Out of memory. `are_all_distinct_by_pairs` allocates nothing.
pub fn are_all_distinct(alloc: Global, values: &[Value]) -> Result<bool, OutOfMemory>
    ensures distinct { IfOk result (λ distinct. distinct ≡ all_distinct (items_view values.now)) }
{
    if values.len() <= FEW {
        return Ok(are_all_distinct_by_pairs(values));
    }
    if let Some(distinct) = are_distinct_numbers(alloc, values)? {
        return Ok(distinct);
    }
    if let Some(distinct) = are_distinct_texts(alloc, values)? {
        return Ok(distinct);
    }
    Ok(are_all_distinct_by_pairs(values))
}
