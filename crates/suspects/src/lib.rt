// Suspects: the significands near a midpoint, among which every failing one is, and the search for the next of them.

#![tactic(auto)]

ghost use Rattle.std.specs.Prelude.{◌≡◌, ◌+◌, ◌-◌, ◌*◌, ◌%◌, ◌≤◌, ◌<◌, ◌^◌};
ghost use Rattle.factor.specs.Context.{context_of, lower_of, upper_of};
ghost use Rattle.factor.specs.SetUp.{Sound};
ghost use Rattle.wide.specs.Value.{word_bits, half_word};
ghost use Rattle.suspects.specs.Next.{window_near, window_in, next_in, first_high, windows, Askable};

use factor::{Factor, SoundFactor};
use search::Found;

// The window of a half: the remainders from `from` to `to`, both included, that are wanted of the multiples of the step modulo the modulus.
#[derive(Clone, Copy)]
pub struct Window {
    pub modulus: u64,
    pub step: u64,
    pub from: u64,
    pub to: u64,
}

// The window of each half, and the first high significand: all that a search needs of a factor.
#[derive(Clone, Copy)]
pub struct Windows {
    pub low: Window,
    pub high: Window,
    pub first_high: u64,
}

// The first high significand: 2 ^ (E + n) over the lower end, rounded up.
pub fn first_high(f: Factor) -> u64
    requires { Sound f }
    ensures { result ≡ first_high (context_of f) (lower_of f) }
{
    let p = SoundFactor { factor: f }.precision();
    let divided = wide::wide_power(p.scale() + p.bits).divide(f.lower);
    if divided.remainder == 0 {
        return divided.quotient;
    }
    divided.quotient + 1
}

// The window near half the distance of two midpoints.
fn window_near(lower: u64, half: u64, window: u64, widening: u64) -> Window
    requires { (0 < window) × (window + widening ≤ half) × (2 * half ≤ half_word) }
    ensures { result ≡ window_near lower half window widening }
{
    let modulus = 2 * half;
    Window {
        modulus,
        step: lower % modulus,
        from: half - window - widening + 1,
        to: half + window - 1,
    }
}

// The window of the half whose products drop so many digits: two midpoints are 2 ^ dropped apart.
fn window_in(f: SoundFactor, dropped: u32) -> Window
    requires { ((context_of f.factor).E ≤ dropped) × (dropped ≤ (context_of f.factor).E + 1) }
    ensures { result ≡ window_in (context_of f.factor) (lower_of f.factor) (upper_of f.factor) (2 ^ (dropped - 1)) }
{
    let p = f.precision();
    let Factor { lower, upper, .. } = f.factor;
    let window = wide::power(p.window_exponent());
    let widening = (upper - lower) * wide::power(p.bits);
    window_near(lower, wide::power(dropped - 1), window, widening)
}

// The windows of a factor.
pub fn windows_of(f: Factor) -> Windows
    requires { Sound f }
    ensures { result ≡ windows (context_of f) (lower_of f) (upper_of f) }
{
    let f = SoundFactor { factor: f };
    let p = f.precision();
    Windows {
        low: window_in(f, p.low_dropped()),
        high: window_in(f, p.high_dropped()),
        first_high: first_high(f.factor),
    }
}

// x times y modulo m, a divisor of 2 ^ 64: the low word of the product tells.
fn remainder(x: u64, y: u64, m: u64) -> u64
    requires { (0 < m) × (2 ^ word_bits % m ≡ 0) }
    ensures { result ≡ x * y % m }
{
    wide::product(x, y).lo % m
}

// The next suspect from the start on, in the half of a window, with the search's rounds.
pub fn next(w: Window, start: u64) -> Found
    requires { Askable w × (start ≤ half_word) }
    ensures { result ≡ next_in w start }
{
    let base = remainder(w.step, start, w.modulus);
    let found = search::find_from(w.modulus, w.step, base, w.from, w.to);
    Found {
        place: found.place.map(|k| start + k),
        ..found
    }
}
