//! Sizes of numbers as digits, a power of two and a power of five.
ghost use Rattle.std.specs.Prelude.{◌≡◌, ◌≢◌, ◌*◌, ◌%◌, ◌^◌, ◌<◌, IsTrue};
ghost use Rattle.std.specs.Float.{float_is_finite};
ghost use Rattle.json_decimals.specs.Amounts.{units, IsAmountOf, IsReduced};
ghost use Rattle.json_decimals.specs.Decimals.{exact};
ghost use Rattle.json_decimals.specs.Multiples.{divides};

/// `digits` times 2 to `twos` times 5 to `fives`, in units of 2^-1074 * 5^-400.
///
/// Neither 2 nor 5 divides the digits, or they are 0.
#[derive(Clone, Copy)]
pub(crate) struct Amount {
    digits: u64,
    twos: u32,
    fives: u32,
}

/// The size of 1.
pub(crate) const ONE: Amount = Amount {
    digits: 1,
    twos: 1074,
    fives: 400,
};

/// Moves each factor of five from the digits to the power.
fn without_fives(digits: u64, twos: u32, fives: u32) -> Amount
    requires small { fives < 4096 }
    requires some { digits ≢ 0 }
    requires odd { digits % 2 ≡ 1 }
    ensures units { units result ≡ digits * 2 ^ twos * 5 ^ fives }
    ensures reduced { IsReduced result.digits }
{
    let mut digits = digits;
    let mut fives = fives;
    while digits % 5 == 0 {
        digits /= 5;
        fives += 1;
    }
    Amount {
        digits,
        twos,
        fives,
    }
}

/// Moves each factor of two and of five from the digits to the powers.
pub(crate) fn reduced(digits: u64, twos: u32, fives: u32) -> Amount
    requires small { (twos < 4096) × (fives < 4096) }
    ensures units { units result ≡ digits * 2 ^ twos * 5 ^ fives }
    ensures reduced { IsReduced result.digits }
{
    if digits == 0 {
        return Amount {
            digits,
            twos,
            fives,
        };
    }
    let zeros = digits.trailing_zeros();
    without_fives(digits >> zeros, twos + zeros, fives)
}

/// Returns the exact size of a float.
pub(crate) fn exact_amount(x: f64) -> Amount
    requires finite { IsTrue (float_is_finite x) }
    ensures amount { IsAmountOf (exact x) result }
{
    let bits = x.to_bits() % 0x8000_0000_0000_0000;
    if bits < 0x10_0000_0000_0000 {
        reduced(bits, 0, 400)
    } else {
        reduced(
            0x10_0000_0000_0000 + bits % 0x10_0000_0000_0000,
            (bits / 0x10_0000_0000_0000 - 1) as u32,
            400,
        )
    }
}

impl Amount {
    /// Returns whether the size is a multiple of the divisor. Only 0 is a multiple of 0.
    pub(crate) fn is_multiple_of(self, divisor: Amount) -> bool
        ensures multiple { (x : _) → (d : _) → IsAmountOf x self → IsAmountOf d divisor
            → 0 < x.under → 0 < d.under → result ≡ divides d x }
    {
        if self.digits == 0 {
            return true;
        }
        if divisor.digits == 0 || self.twos < divisor.twos || self.fives < divisor.fives {
            return false;
        }
        self.digits % divisor.digits == 0
    }
}
