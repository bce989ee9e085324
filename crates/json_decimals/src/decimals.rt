//! The short decimal that reads as a float.
ghost use Rattle.std.specs.Prelude.{◌≡◌, ◌≤◌, ◌<◌, false, true, IsTrue, IfSome, IfNone, None, Some};
ghost use Rattle.std.specs.Float.{binary64, float_is_finite, float_with_sign, is_normal};
ghost use Rattle.std.specs.Float.Ieee.{lt};
ghost use Rattle.json_decimals.specs.Amounts.{IsAmountOf};
ghost use Rattle.json_decimals.specs.Decimals.{decimal, decimal_or_exact, exact, is_small_integer, read, short_power, written};

use crate::amounts::{Amount, ONE, exact_amount, reduced};
use crate::searches::last_before;
use std::num::saturating_f64_to_u64;

/// 10^14, the least number of 15 digits.
const LEAST: u64 = 100_000_000_000_000;

/// 10^15, the end of those numbers.
const END: u64 = 1_000_000_000_000_000;

/// `digits` times 10 to `power`, in units of 10^-400.
#[derive(Clone, Copy)]
struct Decimal {
    digits: u64,
    power: u64,
}

/// Returns the float that a decimal reads as.
fn read(digits: u64, power: u64) -> f64
    ensures value { power ≤ 800 → result ≡ read digits power }
{
    fast_float::from_parts(false, digits, power.min(800) as i64 - 400)
}

/// Returns a guess at the power of the float's last digit, if it has 15 digits.
fn guessed_power(x: f64) -> u64
    requires finite { IsTrue (float_is_finite x) }
{
    let exponent = x.to_bits() % 0x8000_0000_0000_0000 / 0x10_0000_0000_0000;
    // 78_913 / 2^18 is the logarithm of 2 to base 10.
    (exponent * 78_913 + 20_459_585) / 0x4_0000
}

/// Returns a guess at the float's digits at a power.
fn guessed_digits(x: f64, power: u64) -> u64 {
    saturating_f64_to_u64(x / read(1, power) + 0.5)
}

/// Returns the decimal of at most 15 digits that reads as the float, if there is one.
fn short_decimal(x: f64) -> Option<Decimal>
    requires normal { is_normal binary64 x ≡ true }
    requires positive { float_with_sign false x ≡ x }
    ensures some { IfSome result (λ d. (d.power < 800) × (decimal_or_exact x (short_power x 801) ≡ decimal d.digits d.power)) }
    ensures none { IfNone result (short_power x 801 ≡ None) }
{
    let power_below = |power: u64|
        ensures below { power ≤ 800 → result ≡ lt (read 100000000000000 power) x }
    { read(LEAST, power) < x };
    let power = last_before(power_below, 800, guessed_power(x));
    let guess = guessed_digits(x, power);
    let digits_below = |digits: u64|
        ensures below { power ≤ 800 → result ≡ lt (read digits power) x }
    { read(digits, power) < x };
    let digits = last_before(digits_below, END, guess) + 1;
    if read(digits, power) == x {
        Some(Decimal { digits, power })
    } else {
        None
    }
}

impl Decimal {
    /// Returns the decimal as an amount.
    fn amount(self) -> Amount
        requires small { self.power ≤ 800 }
        ensures amount { IsAmountOf (decimal self.digits self.power) result }
    {
        let fives = self.power as u32;
        reduced(self.digits, fives + 674, fives)
    }
}

/// Returns whether the float is an integer below 2^64.
fn is_small_integer(x: f64, amount: Amount) -> bool
    requires finite { IsTrue (float_is_finite x) }
    requires positive { float_with_sign false x ≡ x }
    requires amount { IsAmountOf (exact x) amount }
    ensures value { result ≡ is_small_integer x }
{
    x < 18446744073709551616.0 && amount.is_multiple_of(ONE)
}

/// Returns the size that the float was written as. The float is not negative.
pub(crate) fn written_amount(x: f64) -> Amount
    requires finite { IsTrue (float_is_finite x) }
    requires positive { float_with_sign false x ≡ x }
    ensures amount { IsAmountOf (written x) result }
{
    let amount = exact_amount(x);
    if !x.is_normal() || is_small_integer(x, amount) {
        return amount;
    }
    match short_decimal(x) {
        Some(decimal) => decimal.amount(),
        None => amount,
    }
}
