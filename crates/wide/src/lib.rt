// Numbers of two 64-bit words, by value, for the products that one word does not hold.
// Each contract is an equation on the number that the words make.

#![tactic(auto)]

ghost use Rattle.std.specs.Prelude.{◌≡◌, ◌+◌, ◌-◌, ◌*◌, ◌/◌, ◌%◌, ◌<◌, ◌≤◌, ◌^◌};
ghost use Rattle.std.specs.Float.Ieee.{size};
ghost use Rattle.wide.specs.Value.{half_word, value_of};

use std::ops::{Add, Shl, Shr, Sub};

// The base of a digit of 32 bits, of which a word has two.
const BASE: u64 = 1 << 32;

// A number of two words, worth hi * 2 ^ 64 + lo. The high word comes first, so that the derived order is that of the numbers.
#[derive(Clone, Copy, Debug, PartialEq, Eq, PartialOrd, Ord)]
pub struct Wide {
    pub hi: u64,
    pub lo: u64,
}

// A quotient and its remainder.
#[derive(Clone, Copy, Debug, PartialEq, Eq)]
pub struct Divided {
    pub quotient: u64,
    pub remainder: u64,
}

// A word as a number of two words.
impl From<u64> for Wide {
    ghost from_gives = { λ x u. value_of u ≡ x };

    fn from(x: u64) -> Wide {
        Wide { hi: 0, lo: x }
    }
}

// The whole product of two words, by columns of digits of 32 bits: each column's carry goes to the next.
pub fn product(a: u64, b: u64) -> Wide
    ensures { value_of result ≡ a * b }
{
    let a0 = a % BASE;
    let a1 = a / BASE;
    let b0 = b % BASE;
    let b1 = b / BASE;
    let lowest = a0 * b0;
    let middle = a1 * b0 + lowest / BASE;
    let next = middle % BASE + a0 * b1;
    Wide {
        hi: a1 * b1 + middle / BASE + next / BASE,
        lo: next % BASE * BASE + lowest % BASE,
    }
}

// The same where the second is one digit: two columns.
pub fn product_by_digit(a: u64, d: u64) -> Wide
    requires { d < 2 ^ 32 }
    ensures { value_of result ≡ a * d }
{
    let lowest = a % BASE * d;
    let next = a / BASE * d + lowest / BASE;
    Wide {
        hi: next / BASE,
        lo: next % BASE * BASE + lowest % BASE,
    }
}

// The sum, where the high words leave room for a carry.
impl Add for Wide {
    type Output = Wide;

    ghost can_add = { λ u v. u.hi + v.hi + 1 < 2 ^ 64 };

    ghost add_gives = { λ u v r. value_of r ≡ value_of u + value_of v };

    fn add(self, v: Wide) -> Wide {
        let (lo, carry) = self.lo.overflowing_add(v.lo);
        Wide {
            hi: self.hi + v.hi + carry as u64,
            lo,
        }
    }
}

// The difference, where it is not below zero.
impl Sub for Wide {
    type Output = Wide;

    ghost can_sub = { λ u v. value_of v ≤ value_of u };

    ghost sub_gives = { λ u v r. value_of r ≡ value_of u - value_of v };

    fn sub(self, v: Wide) -> Wide {
        let (lo, borrow) = self.lo.overflowing_sub(v.lo);
        Wide {
            hi: self.hi - v.hi - borrow as u64,
            lo,
        }
    }
}

// 2 ^ k in one word.
pub fn power(k: u32) -> u64
    requires { k < 64 }
    ensures { result ≡ 2 ^ k }
{
    1u64 << k
}

// 2 ^ k in two words.
pub fn wide_power(k: u32) -> Wide
    requires { k < 128 }
    ensures { value_of result ≡ 2 ^ k }
{
    Wide::from(1) << k
}

// u times 2 ^ k, where no digit is lost. A shift by 64 - k is made of two, since k may be 0.
impl Shl<u32> for Wide {
    type Output = Wide;

    ghost can_shl = { λ u k. (k < 128) × (value_of u < 2 ^ (128 - k)) };

    ghost shl_gives = { λ u k r. value_of r ≡ value_of u * 2 ^ k };

    fn shl(self, k: u32) -> Wide {
        if k < 64 {
            Wide {
                hi: (self.hi << k) + (self.lo >> 1 >> (63 - k)),
                lo: self.lo << k,
            }
        } else {
            Wide {
                hi: self.lo << (k - 64),
                lo: 0,
            }
        }
    }
}

// u over 2 ^ k, whose remainder `low_digits` gives.
impl Shr<u32> for Wide {
    type Output = Wide;

    ghost can_shr = { λ _ k. k < 128 };

    ghost shr_gives = { λ u k r. value_of r ≡ value_of u / 2 ^ k };

    fn shr(self, k: u32) -> Wide {
        if k < 64 {
            Wide {
                hi: self.hi >> k,
                lo: (self.hi << 1 << (63 - k)) + (self.lo >> k),
            }
        } else {
            Wide {
                hi: 0,
                lo: self.hi >> (k - 64),
            }
        }
    }
}

// How many binary digits a word has, 0 for 0. Its leading zeros give the place of its highest bit.
pub fn word_digits(x: u64) -> u32
    ensures count { result ≡ size x }
    ensures most { result ≤ 64 }
{
    64 - x.leading_zeros()
}

// One step of long division, high * 2 ^ 32 + low by d, for a divisor with its highest bit set:
// the quotient is estimated by the divisor's upper digit and is at most 2 less.
fn quotient_digit(high: u64, low: u64, d: u64) -> Divided
    requires { (half_word ≤ d) × (high < d) × (low < 2 ^ 32) }
    ensures quotient { result.quotient ≡ (high * 2 ^ 32 + low) / d }
    ensures remainder { result.remainder ≡ (high * 2 ^ 32 + low) % d }
{
    let d0 = d % BASE;
    let d1 = d / BASE;
    let estimate = high / d1;
    let left = high % d1 * BASE + low;
    let taken = estimate * d0;
    if taken <= left {
        Divided {
            quotient: estimate,
            remainder: left - taken,
        }
    } else if taken - left <= d {
        Divided {
            quotient: estimate - 1,
            remainder: d - (taken - left),
        }
    } else {
        Divided {
            quotient: estimate - 2,
            remainder: d - (taken - left - d),
        }
    }
}

// u by d in two steps of long division, for a divisor with its highest bit set.
fn divide_normal(u: Wide, d: u64) -> Divided
    requires { (half_word ≤ d) × (u.hi < d) }
    ensures quotient { result.quotient ≡ value_of u / d }
    ensures remainder { result.remainder ≡ value_of u % d }
{
    let first = quotient_digit(u.hi, u.lo / BASE, d);
    let second = quotient_digit(first.remainder, u.lo % BASE, d);
    Divided {
        quotient: first.quotient * BASE + second.quotient,
        remainder: second.remainder,
    }
}

impl Wide {
    // A number that one word holds, as that word.
    pub fn to_word(self) -> u64
        requires { value_of self < 2 ^ 64 }
        ensures { result ≡ value_of self }
    {
        self.lo
    }

    // How many binary digits the number has, 0 for 0: by these a two-word product is normalised before it is rounded.
    pub fn digits(self) -> u32
        ensures count { result ≡ size (value_of self) }
        ensures most { result ≤ 128 }
    {
        if self.hi == 0 {
            word_digits(self.lo)
        } else {
            64 + word_digits(self.hi)
        }
    }

    // The k lowest digits: the remainder over 2 ^ k.
    pub fn low_digits(self, k: u32) -> Wide
        requires { k < 128 }
        ensures { value_of result ≡ value_of self % 2 ^ k }
    {
        if k < 64 {
            Wide {
                hi: 0,
                lo: self.lo % power(k),
            }
        } else {
            Wide {
                hi: self.hi % power(k - 64),
                lo: self.lo,
            }
        }
    }

    // The number by d, where the quotient is one word: both are shifted until the divisor's highest bit is set.
    pub fn divide(self, d: u64) -> Divided
        requires { self.hi < d }
        ensures quotient { result.quotient ≡ value_of self / d }
        ensures remainder { result.remainder ≡ value_of self % d }
    {
        let k = d.leading_zeros();
        let divided = divide_normal(self << k, d << k);
        Divided {
            quotient: divided.quotient,
            remainder: divided.remainder >> k,
        }
    }
}
