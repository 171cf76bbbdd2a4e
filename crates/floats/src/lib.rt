// Binary32 numbers by their bit patterns: the one crate that knows how a float is laid out. What it knows is stated over a format, of which binary32 is one.

#![tactic(auto)]

ghost use Rattle.std.specs.Prelude.{◌≡◌, ◌<◌, ◌^◌};
ghost use Rattle.std.specs.Float.Ieee;
ghost use Rattle.std.specs.Float.{binary32};
ghost use Rattle.std.specs.Float.Ieee.{emax, of_bits, to_bits};
ghost use Rattle.wide.specs.Value.{word_bits};
ghost use Rattle.floats.specs.Fields.{sign_of, biased_exponent, trailing_significand, significand_of, zero_of, same_float, float_of, Normalized, Narrow, unit_at, WholeInUnits, units_of};

// How many digits a significand has, the leading one counted.
pub const PRECISION: u32 = f32::MANTISSA_DIGITS;

// The largest exponent.
const MOST_EXPONENT: u32 = f32::MAX_EXP as u32 - 1;

// The biased exponent of infinities and NaNs.
pub const INFINITE_OR_NAN: u32 = 2 * MOST_EXPONENT + 1;

// The weight of the biased exponent in a pattern, which the leading digit has too, and that of the sign.
const LEADING: u32 = 1 << (PRECISION - 1);

const SIGN: u32 = LEADING * (INFINITE_OR_NAN + 1);

// The patterns of plus infinity and of NaN.
const INFINITY: u32 = INFINITE_OR_NAN * LEADING;

const NAN: u32 = INFINITY + LEADING / 2;

// Whether a pattern has the sign.
pub fn is_minus(bits: u32) -> bool
    ensures { result ≡ sign_of binary32 bits }
{
    SIGN <= bits
}

// The biased exponent of a pattern.
pub fn biased_exponent(bits: u32) -> u32
    ensures { result ≡ biased_exponent binary32 bits }
{
    bits % SIGN / LEADING
}

// The trailing significand of a pattern: its digits below the leading one.
pub fn trailing_significand(bits: u32) -> u32
    ensures { result ≡ trailing_significand binary32 bits }
{
    bits % LEADING
}

// The significand of a normal number's pattern.
pub fn significand_of(bits: u32) -> u32
    ensures { result ≡ significand_of binary32 bits }
{
    LEADING + trailing_significand(bits)
}

// The number of a pattern, all NaN patterns being one NaN.
pub fn float_from(bits: u32) -> f32
    ensures { result ≡ of_bits binary32 bits }
{
    if INFINITY < bits % SIGN {
        f32::NAN
    } else {
        f32::from_bits(bits)
    }
}

// The pattern of a number, a NaN's too.
pub fn bits_of(x: f32) -> u32
    ensures { result ≡ to_bits binary32 x }
{
    if x.is_nan() { NAN } else { x.to_bits() }
}

// Whether two floats are the same bit for bit.
pub fn same_float(x: f32, y: f32) -> bool
    ensures { result ≡ same_float binary32 x y }
{
    bits_of(x) == bits_of(y)
}

// Zero with a sign.
pub fn zero(minus: bool) -> f32
    ensures { result ≡ zero_of minus }
{
    if minus { -0.0 } else { 0.0 }
}

// The float of a sign, an exponent and a significand: m * 2 ^ exponent times the smallest positive value.
pub fn float_of(minus: bool, exponent: u32, m: u32) -> f32
    requires { Normalized binary32 exponent m }
    ensures { result ≡ float_of binary32 minus exponent m }
{
    let size = exponent * LEADING + m;
    if minus {
        f32::from_bits(SIGN + size)
    } else {
        f32::from_bits(size)
    }
}

// m / 2 ^ places with a sign, for an m of n digits, or 2 ^ n.
pub fn narrow_float(minus: bool, n: u32, m: u64, places: u32) -> f32
    requires { Narrow binary32 n m places }
    ensures { result ≡ Ieee.round binary32 minus m (2 ^ places) }
{
    let up = PRECISION - n;
    float_of(minus, MOST_EXPONENT + n - 2 - places, (m << up) as u32)
}

// The unit of a product of a number over 2 ^ scale and one from 1 to below 2: 2 ^ unit_at(scale) times the smallest positive value.
pub fn unit_at(scale: u32) -> u32
    requires { scale < emax binary32 }
    ensures { result ≡ unit_at binary32 scale }
{
    MOST_EXPONENT - 1 - scale
}

// The size of a number that is whole in units of 2 ^ d times the smallest positive value, counted in them.
pub fn units_of(x: f32, d: u32) -> u64
    requires { WholeInUnits binary32 word_bits d (to_bits binary32 x) }
    ensures { result ≡ units_of binary32 d (to_bits binary32 x) }
{
    let bits = x.to_bits();
    if bits % SIGN == 0 {
        return 0;
    }
    (significand_of(bits) as u64) << (biased_exponent(bits) - 1 - d)
}
