//! Multiples (JSON Schema Validation 2020-12, 6.2.1).
ghost use Rattle.std.specs.Prelude.{◌≡◌};
ghost use Rattle.serde_json.specs.View.{number_view};
ghost use Rattle.json_decimals.specs.Amounts.{IsAmountOf};
ghost use Rattle.json_decimals.specs.Decimals.{size_of};
ghost use Rattle.json_decimals.specs.Multiples.{is_multiple_of};

use crate::amounts::{Amount, reduced};
use crate::decimals::written_amount;
use json_values::{Kind, held_as};
use serde_json::Number;

/// Returns the size of the number that was written.
fn amount_of(number: &Number) -> Amount
    ensures amount { IsAmountOf (size_of (number_view number.now)) result }
{
    match held_as(number) {
        Kind::Natural(n) => reduced(n, 1074, 400),
        Kind::Negative(n) => reduced(n.unsigned_abs(), 1074, 400),
        Kind::Fraction(x) => written_amount(x.abs()),
    }
}

/// Returns whether the number is a multiple of the divisor, both as they were written.
///
/// 4.35 is a multiple of 0.01, and 1e18 of no more numbers than 1000000000000000000 is. Only 0 is a
/// multiple of 0, which is never the value of `multipleOf`.
pub fn is_multiple_of(number: &Number, divisor: &Number) -> bool
    ensures multiple { result ≡ is_multiple_of (number_view number.now) (number_view divisor.now) }
{
    match (number.as_u64(), divisor.as_u64()) {
        (Some(n), Some(d)) if d > 0 => n % d == 0,
        _ => amount_of(number).is_multiple_of(amount_of(divisor)),
    }
}
