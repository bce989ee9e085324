//! The order of JSON numbers, without rounding.
//!
//! An integer and a float are compared by their exact values, as `maximum`, `minimum` and their
//! exclusive forms require (JSON Schema Validation 2020-12, 6.2.2 to 6.2.5).
ghost use Rattle.std.specs.Prelude.{◌≡◌, false, pos};
ghost use Rattle.std.specs.Float.{fin};
ghost use Rattle.std.specs.Ordering.{nan_last_cmp};
ghost use Rattle.serde_json.specs.View.{number_view};
ghost use Rattle.json_values.specs.Numbers.{at_most, less, num_of, order, same_number, IsProper};

use serde_json::Number;
use std::cmp::{OrderedFloat, Ordering};
use std::num::{nearest_u64_to_f64, saturating_f64_to_u64};

/// 2^53: floats hold each natural number up to it exactly.
const EXACT: u64 = 9007199254740992;

/// How a number is represented.
#[derive(Clone, Copy)]
pub enum Kind {
    /// An integer that is not negative.
    Natural(u64),
    /// An integer below 0.
    Negative(i64),
    /// A finite float.
    Fraction(f64),
}

/// Returns the number as it is represented.
pub fn held_as(number: &Number) -> Kind
    ensures view { num_of result ≡ number_view number.now }
    ensures proper { IsProper result }
{
    if let Some(n) = number.as_u64() {
        return Kind::Natural(n);
    }
    if let Some(n) = number.as_i64() {
        return Kind::Negative(n);
    }
    match number.as_f64() {
        Some(x) => Kind::Fraction(x),
        None => Kind::Natural(0),
    }
}

/// Compares a natural number with a float.
fn compare_natural(n: u64, x: f64) -> Ordering
    ensures order { result ≡ nan_last_cmp (fin false n (pos 0)) x }
{
    if n <= EXACT {
        OrderedFloat(nearest_u64_to_f64(n)).cmp(&OrderedFloat(x))
    } else if x < 18446744073709551616.0 {
        // If they differ by less than 1, x is too large to have a fraction.
        n.cmp(&saturating_f64_to_u64(x))
    } else {
        Ordering::Less
    }
}

fn compare_kinds(left: Kind, right: Kind) -> Ordering
    requires left_proper { IsProper left }
    requires right_proper { IsProper right }
    ensures order { result ≡ order (num_of left) (num_of right) }
{
    match (left, right) {
        (Kind::Natural(m), Kind::Natural(n)) => m.cmp(&n),
        (Kind::Natural(_), Kind::Negative(_)) => Ordering::Greater,
        (Kind::Natural(m), Kind::Fraction(y)) => compare_natural(m, y),
        (Kind::Negative(_), Kind::Natural(_)) => Ordering::Less,
        (Kind::Negative(m), Kind::Negative(n)) => m.cmp(&n),
        (Kind::Negative(m), Kind::Fraction(y)) => {
            compare_natural(m.unsigned_abs(), -y).reverse()
        }
        (Kind::Fraction(x), Kind::Natural(n)) => compare_natural(n, x).reverse(),
        (Kind::Fraction(x), Kind::Negative(n)) => compare_natural(n.unsigned_abs(), -x),
        (Kind::Fraction(x), Kind::Fraction(y)) => OrderedFloat(x).cmp(&OrderedFloat(y)),
    }
}

/// Compares two numbers by their exact values.
///
/// 1 equals 1.0, and 2^53 + 1 is greater than 2^53 even if one of them is a float.
pub fn compare(left: &Number, right: &Number) -> Ordering
    ensures order { result ≡ order (number_view left.now) (number_view right.now) }
{
    compare_kinds(held_as(left), held_as(right))
}

/// Returns whether the left number is at most the right one.
///
/// `maximum` and, with its arguments swapped, `minimum` require this (JSON Schema Validation
/// 2020-12, 6.2.2 and 6.2.4).
pub fn is_at_most(left: &Number, right: &Number) -> bool
    ensures at_most { result ≡ at_most (number_view left.now) (number_view right.now) }
{
    compare(left, right).is_le()
}

/// Returns whether the left number is less than the right one.
///
/// `exclusiveMaximum` and, with its arguments swapped, `exclusiveMinimum` require this (JSON Schema
/// Validation 2020-12, 6.2.3 and 6.2.5).
pub fn is_less(left: &Number, right: &Number) -> bool
    ensures less { result ≡ less (number_view left.now) (number_view right.now) }
{
    compare(left, right).is_lt()
}

/// Returns whether both are the same number.
///
/// 1 and 1.0 are (JSON Schema Core 2020-12, 4.2.2).
pub fn is_same_number(left: &Number, right: &Number) -> bool
    ensures same { result ≡ same_number (number_view left.now) (number_view right.now) }
{
    compare(left, right).is_eq()
}
