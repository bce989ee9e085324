//! Integers (JSON Schema Validation 2020-12, 6.1.1).
//!
//! A float is split into odd digits and a power of two.
ghost use Rattle.std.specs.Prelude.{◌%◌, ◌==◌, ◌≡◌, ◌*◌, ◌^◌, ◌<◌, IsTrue, unwrap_or, option_map, false};
ghost use Rattle.std.specs.Float.{float_is_finite};
ghost use lib.Ieee.Positive.{den, num};
ghost use Rattle.serde_json.specs.Find.{as_number};
ghost use Rattle.serde_json.specs.View.{number_view, view};
ghost use Rattle.json_values.specs.Numbers.{is_whole, natural_of};
ghost use Rattle.json_values.specs.Sizes.{units, IsReduced, IsSizeOf};

use crate::numbers::{Kind, held_as, is_at_most};
use serde_json::{Number, Value};
use std::num::saturating_f64_to_u64;

/// `digits` times 2 to the `power`, in units of 2^-1074, the smallest float.
///
/// The digits are odd or 0.
#[derive(Clone, Copy)]
pub(crate) struct Size {
    digits: u64,
    power: u32,
}

/// Moves each factor of two from the digits to the power.
fn reduced(digits: u64, power: u32) -> Size
    requires small { power < 4096 }
    ensures units { units result ≡ digits * 2 ^ power }
    ensures odd { IsReduced result.digits }
{
    if digits == 0 {
        return Size { digits, power };
    }
    let zeros = digits.trailing_zeros();
    Size {
        digits: digits >> zeros,
        power: power + zeros,
    }
}

fn size_of_float(x: f64) -> Size
    requires finite { IsTrue (float_is_finite x) }
    ensures size { IsSizeOf x result }
{
    let bits = x.to_bits() % 0x8000_0000_0000_0000;
    if bits < 0x10_0000_0000_0000 {
        reduced(bits, 0)
    } else {
        reduced(
            0x10_0000_0000_0000 + bits % 0x10_0000_0000_0000,
            (bits / 0x10_0000_0000_0000 - 1) as u32,
        )
    }
}

fn is_whole_float(x: f64) -> bool
    requires finite { IsTrue (float_is_finite x) }
    ensures whole { result ≡ (num x % den x == 0) }
{
    let size = size_of_float(x);
    size.digits == 0 || 1074 <= size.power
}

/// Returns whether the number is an integer: 1.0 is one.
pub fn is_whole(number: &Number) -> bool
    ensures whole { result ≡ is_whole (number_view number.now) }
{
    match held_as(number) {
        Kind::Natural(_) => true,
        Kind::Negative(_) => true,
        Kind::Fraction(x) => is_whole_float(x),
    }
}

/// Returns the number as a natural number, if it is one: 2.0 is 2.
///
/// A number above the largest `u64`, which no size or length reaches, counts as the largest `u64`.
pub fn natural_of(number: &Number) -> Option<u64>
    ensures natural { result ≡ natural_of (number_view number.now) }
{
    if let Some(natural) = number.as_u64() {
        return Some(natural);
    }
    if !number.is_f64() {
        return None;
    }
    let fraction = number.as_f64()?;
    if is_whole(number) && is_at_most(&Number::from(0u64), number) {
        Some(saturating_f64_to_u64(fraction))
    } else {
        None
    }
}

/// Returns whether the value is an integer: 1.0 is one.
///
/// The `integer` of `type` requires this.
pub fn is_integer_valued(value: &Value) -> bool
    ensures whole { result ≡ unwrap_or (option_map is_whole (as_number (view value.now))) false }
{
    match value.as_number() {
        Some(number) => is_whole(number),
        None => false,
    }
}
