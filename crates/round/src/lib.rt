// Rounding numbers of one word and of two words to n bits, and quotients of words to whole numbers: where the number lies between its neighbours, which of them is taken, and the carry.
// Every rounding hands back its direction, read off where the number lies. Contracts are equations with RN (`rounded` of the crate `rounding`), or with what it is made of: `location`, `upward`, `nearest` and the number of digits.

#![tactic(auto)]

ghost use Rattle.std.specs.Prelude.{◌≡◌, suc, ◌+◌, ◌-◌, ◌*◌, ◌/◌, ◌%◌, ◌<◌, ◌≤◌, ◌^◌};
ghost use Rattle.rounding.specs.Direction.{signed_direction, to_signed};
ghost use Rattle.rounding.specs.Grid.{rule_of, location, upward, side_taken};
ghost use Rattle.rounding.specs.Round.{normalised, rounded};
ghost use Rattle.rounding.specs.Signed.{signed_of, rounded_signed};
ghost use Rattle.rounding.specs.ByDigits.{padded};
ghost use Rattle.wide.specs.Value.{word_bits, half_word, value_of};
ghost use Rattle.round.specs.Neighbour.{neighbour_at, neighbour};
ghost use Rattle.round.specs.Cuts.{cut_at, uncut, RoundedCut};

use rounding::{Directed, Direction, Location, Rounded, Signed, TieRule};
use std::cmp::Ordering;
use wide::Wide;

// whole + rest / (2 * half), for a rest below 2 * half.
#[derive(Clone, Copy, Debug, PartialEq, Eq)]
pub struct Mixed {
    pub whole: u64,
    pub rest: Wide,
    pub half: Wide,
}

// Whether a fraction half way above q goes up.
pub fn tie_up(q: u64, rule: TieRule) -> bool
    ensures { result ≡ rule_of rule q }
{
    match rule {
        TieRule::ToEven => q % 2 == 1,
        TieRule::AwayFromZero => true,
    }
}

// On which side of a fraction its neighbour lies, by where the fraction lies and whether it goes up: choices between constants, which need no branch.
fn direction_at(l: Location, up: bool) -> Direction
    ensures { result ≡ side_taken l up }
{
    match (l, up) {
        (Location::Exact, _) => Direction::Equal,
        (_, true) => Direction::Above,
        (_, false) => Direction::Below,
    }
}

impl Mixed {
    // Where the fraction lies between 0 and 1.
    pub fn locate(self) -> Location
        ensures { result ≡ location (value_of self.rest) (value_of self.half * 2) }
    {
        if self.rest == Wide::from(0) {
            Location::Exact
        } else {
            match self.rest.cmp(&self.half) {
                Ordering::Less => Location::BelowHalf,
                Ordering::Equal => Location::Half,
                Ordering::Greater => Location::AboveHalf,
            }
        }
    }

    // Whether the number goes up to whole + 1: past half, and at half where the rule says so. Every rounding comes down to this: a comparison and no branch, since which one it is cannot be foreseen.
    pub fn goes_up(self, rule: TieRule) -> bool
        requires { (self.rest.hi + 1 < 2 ^ word_bits) × (0 < value_of self.half) }
        ensures { result ≡ upward (rule_of rule) self.whole (location (value_of self.rest) (value_of self.half * 2)) }
    {
        self.half < self.rest + Wide::from(tie_up(self.whole, rule) as u64)
    }

    // The nearest whole number.
    pub fn nearest(self, rule: TieRule) -> Directed<u64>
        requires { (self.whole + 1 < 2 ^ word_bits) × (self.rest.hi + 1 < 2 ^ word_bits) × (0 < value_of self.half) }
        ensures { result ≡ neighbour_at (rule_of rule) self.whole (value_of self.rest) (value_of self.half * 2) }
    {
        let up = self.goes_up(rule);
        Directed {
            value: self.whole + up as u64,
            direction: direction_at(self.locate(), up),
        }
    }
}

// x / 2 ^ k to the nearest whole number.
pub fn nearest_word(x: u64, k: u32, rule: TieRule) -> Directed<u64>
    requires { (1 ≤ k) × (k < word_bits) }
    ensures { result ≡ neighbour (rule_of rule) x (2 ^ k) }
{
    let step = wide::power(k);
    Mixed {
        whole: x / step,
        rest: Wide::from(x % step),
        half: Wide::from(wide::power(k - 1)),
    }
    .nearest(rule)
}

// x / d to the nearest whole number, for any d, by one division: twice the remainder is compared with the divisor.
pub fn nearest_quotient(x: u64, d: u64, rule: TieRule) -> Directed<u64>
    requires { (0 < d) × (x / d + 1 < 2 ^ word_bits) }
    ensures { result ≡ neighbour (rule_of rule) x d }
{
    let rest = Wide::from(x % d);
    Mixed {
        whole: x / d,
        rest: rest + rest,
        half: Wide::from(d),
    }
    .nearest(rule)
}

// The kept digits as a significand and an exponent: the carry 2 ^ n is the next binade's first.
pub fn normalise(kept: u64, n: u32, dropped: u32, direction: Direction) -> Rounded<u64>
    requires { (1 ≤ n) × (n < word_bits) × (dropped < 2 * word_bits) }
    ensures { result ≡ normalised n kept dropped 0 direction }
{
    let (significand, exponent) = if kept == wide::power(n) {
        (wide::power(n - 1), dropped + 1)
    } else {
        (kept, dropped)
    };
    Rounded {
        significand,
        exponent: exponent as i32,
        direction,
    }
}

// A word of b digits, at most n: all of them are kept, and zeros are put behind them.
fn widened(x: u64, b: u32, n: u32) -> Rounded<u64>
    requires { (n < word_bits) × (b ≤ n) × (x < 2 ^ b) }
    ensures { result ≡ padded n x b }
{
    let shift = n - b;
    Rounded {
        significand: x << shift,
        exponent: -(shift as i32),
        direction: Direction::Equal,
    }
}

// A word to n bits.
pub fn round_word(x: u64, n: u32, rule: TieRule) -> Rounded<u64>
    requires { (1 ≤ n) × (n < word_bits) }
    ensures { result ≡ rounded (rule_of rule) n x 1 }
{
    round_wide(Wide::from(x), n, rule)
}

// A number of two words to n bits.
pub fn round_wide(u: Wide, n: u32, rule: TieRule) -> Rounded<u64>
    requires { (1 ≤ n) × (n < word_bits) }
    ensures { result ≡ rounded (rule_of rule) n (value_of u) 1 }
{
    match u.digits() {
        0 => Rounded {
            significand: 0,
            exponent: 0,
            direction: Direction::Equal,
        },
        b if b <= n => widened(u.to_word(), b, n),
        b => {
            let k = b - n;
            let near = Mixed {
                whole: (u >> k).to_word(),
                rest: u.low_digits(k),
                half: wide::wide_power(k - 1),
            }
            .nearest(rule);
            normalise(near.value, n, k, near.direction)
        }
    }
}

// A whole number cut in two: what is kept of it, and its k lowest digits.
#[derive(Clone, Copy, Debug, PartialEq, Eq)]
pub struct Cut {
    pub kept: u64,
    pub rest: u64,
}

// A word cut at k digits.
pub fn cut_word(x: u64, k: u32) -> Cut
    requires { k < word_bits }
    ensures { result ≡ cut_at k x }
{
    let step = wide::power(k);
    Cut {
        kept: x / step,
        rest: x % step,
    }
}

// A number of two words cut so, where what is kept is one.
pub fn cut_wide(u: Wide, k: u32) -> Cut
    requires { (k < word_bits) × (value_of u < 2 ^ (word_bits + k)) }
    ensures { result ≡ cut_at k (value_of u) }
{
    Cut {
        kept: (u >> k).to_word(),
        rest: u.low_digits(k).to_word(),
    }
}

// The sum of two numbers that are cut at the same place: the carry of the rests is kept.
pub fn cut_sum(a: Cut, b: Cut, k: u32) -> Cut
    requires { (k < word_bits) × (a.rest < 2 ^ k) × (b.rest < 2 ^ k) × (a.kept + b.kept + 1 < 2 ^ word_bits) }
    ensures { result ≡ cut_at k (uncut k a + uncut k b) }
{
    let rest = a.rest + b.rest;
    let step = wide::power(k);
    Cut {
        kept: a.kept + b.kept + rest / step,
        rest: rest % step,
    }
}

// A number that is cut where n digits are kept, or one more, to n bits, in units of 2 ^ k: no leading zeros are counted.
pub fn round_cut(c: Cut, k: u32, n: u32, rule: TieRule) -> Directed<u64>
    requires { (1 ≤ n) × (n + 2 < word_bits) × (1 ≤ k) × (k + 1 < word_bits) × (c.rest < 2 ^ k) × (2 ^ (n - 1) ≤ c.kept) × (c.kept < 2 ^ suc n) }
    ensures { RoundedCut (rule_of rule) n k (uncut k c) result }
{
    if c.kept < wide::power(n) {
        Mixed {
            whole: c.kept,
            rest: Wide::from(c.rest),
            half: Wide::from(wide::power(k - 1)),
        }
        .nearest(rule)
    } else {
        let step = wide::power(k);
        let near = Mixed {
            whole: c.kept / 2,
            rest: Wide::from(c.kept % 2 * step + c.rest),
            half: Wide::from(step),
        }
        .nearest(rule);
        Directed {
            value: 2 * near.value,
            direction: near.direction,
        }
    }
}

// A size with a sign.
pub fn with_sign(minus: bool, m: u64) -> i64
    requires { m < half_word }
    ensures { result ≡ signed_of minus m }
{
    if minus { -(m as i64) } else { m as i64 }
}

// The direction of a number with a sign, by that of its size: a negative number's is mirrored.
pub fn signed_direction(minus: bool, d: Direction) -> Direction
    ensures { result ≡ signed_direction minus d }
{
    match (minus, d) {
        (true, Direction::Below) => Direction::Above,
        (true, Direction::Above) => Direction::Below,
        _ => d,
    }
}

// A rounded size with a sign put on.
pub fn to_signed<T>(minus: bool, v: Directed<T>) -> Signed<T>
    ensures { result ≡ to_signed minus v }
{
    Signed {
        minus,
        value: v.value,
        direction: signed_direction(minus, v.direction),
    }
}

// A signed number to n bits: the size is rounded, and the sign stays.
pub fn round_signed(z: i64, n: u32, rule: TieRule) -> Rounded<i64>
    requires { (1 ≤ n) × (n < word_bits) }
    ensures { result ≡ rounded_signed (rule_of rule) n z }
{
    let r = round_word(z.unsigned_abs(), n, rule);
    Rounded {
        significand: with_sign(z < 0, r.significand),
        exponent: r.exponent,
        direction: signed_direction(z < 0, r.direction),
    }
}
