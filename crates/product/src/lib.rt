// The product of a factor and a significand on either device, with the direction of its last rounding and the factor's sign, and the mark of a value.

#![tactic(auto)]

ghost use Rattle.std.specs.Prelude.{◌≡◌, ℕ, ◌-◌, ◌*◌, ◌<◌, ◌≤◌, ◌^◌, [], ◌∷◌};
ghost use Rattle.marks.specs.Answers.{said, each, answer};
ghost use Rattle.rounding.specs.Unit.{rn};
ghost use Rattle.rounding.specs.Round.{HasBits};
ghost use Rattle.wide.specs.Value.{word_bits, value_of};
ghost use Rattle.factor.specs.declared.Factor.{Factor};
ghost use Rattle.factor.specs.Precision.{scale_of, significand_out, range_out};
ghost use Rattle.factor.specs.Context.{tie_rule, context_at, context_of};
ghost use Rattle.factor.specs.UnitParts.{unit_parts_of};
ghost use Rattle.factor.specs.SetUp.{Sound};
ghost use Rattle.product.specs.Product.{product_by, steps_of};
ghost use Rattle.product.specs.OneStep.{one_step_by};
ghost use Rattle.product.specs.declared.Device.{Device};
ghost use Rattle.product.specs.Devices.{product_on, direction_on, directed_on};
ghost use Rattle.product.specs.Marks.{mark_by};
ghost use Rattle.product.specs.Units.{first_units, fused_units, directed_units, mark_units, Within};
ghost use Rattle.product.specs.Answer.{conditions, marked as markedBy, answered, multiplied};

use factor::{Factor, Precision, SoundFactor};
use marks::{Mark, Marked, Refusal};
use rounding::{Directed, Signed, TieRule};
use wide::Wide;

// The handheld that makes a product.
#[derive(Clone, Copy, Debug, PartialEq, Eq)]
pub enum Device {
    // with the fused step: u1 = RN(Cl * x), then u2 = RN(Ch * x + u1)
    TwoStep,
    // without it: RN(Ch * x)
    OneStep,
}

// A product's size, from 1 to below 4: a significand of n bits, and its binade, 0 for [1, 2) and 1 for [2, 4).
#[derive(Clone, Copy, Debug, PartialEq, Eq)]
pub struct Product {
    pub significand: u64,
    pub binade: u32,
}

// A factor that 31 lets through, and a significand that 17 lets through: what a device multiplies.
#[derive(Clone, Copy)]
pub struct Operands {
    pub factor: Factor,
    pub significand: u64,
    ghost sound: { Sound factor },
    ghost in_range: { HasBits factor.precision significand },
}

impl Product {
    // A product in steps of binade 0, which are 2 ^ (1 - n): so products are compared.
    fn steps(self) -> u64
        requires { (self.binade ≤ 1) × (steps_of self < 2 ^ word_bits) }
        ensures { result ≡ steps_of self }
    {
        self.significand << self.binade
    }
}

// A number of the unit 2 ^ - (E + n - 1), at least 1, to n bits: its leading zeros tell the digits to drop, and how many more than in binade 0 they are tells the binade. The direction is that of this rounding.
fn rounded_units(p: Precision, y: Wide) -> Directed<Product>
    requires { (2 ^ (p.bits - 1) * 2 ^ scale_of p.bits ≤ value_of y) }
    ensures { result ≡ directed_units (context_at p.bits) (value_of y) }
{
    let r = round::round_wide(y, p.bits, TieRule::ToEven);
    let value = Product {
        significand: r.significand,
        binade: r.exponent as u32 - p.low_dropped(),
    };
    Directed {
        value,
        direction: r.direction,
    }
}

// RN(C * x) at an end, in steps of binade 0, by C * x of that unit.
fn end_steps(p: Precision, y: Wide) -> u64
    requires { Within (context_at p.bits) (value_of y) }
    ensures { result * 2 ^ scale_of p.bits ≡ rn tie_rule p.bits (value_of y) 1 }
{
    rounded_units(p, y).value.steps()
}

// The mark of a value by the two that the ends round to.
pub fn compared(a: u64, b: u64, v: u64) -> Mark
    ensures { result ≡ mark_units a b v }
{
    if a == v && b == v {
        return Mark::Right;
    }
    if v < a {
        return Mark::Wrong;
    }
    if b < v {
        return Mark::Wrong;
    }
    Mark::Open
}

// Refusal 17: a significand outside 2 ^ (n - 1) to 2 ^ n - 1.
pub fn significand_out(p: Precision, x: u64) -> bool
    ensures { result ≡ significand_out p.bits x }
{
    x < p.least() || p.most() < x
}

// Refusal 17 of a range: a significand outside 2 ^ (n - 1) to 2 ^ n - 1, or the first above the last.
pub fn range_out(p: Precision, first: u64, last: u64) -> bool
    ensures { result ≡ range_out p.bits first last }
{
    significand_out(p, first) || significand_out(p, last) || last < first
}

impl Operands {
    // A factor and a significand, or the first refusal whose condition holds: 31 by the factor, then 17, whatever is then made of them.
    pub fn new(factor: Factor, significand: u64) -> Result<Operands, Refusal>
        ensures { each {B = Factor × ℕ} (λ o. (o.factor, o.significand)) (said result) ≡ answer (conditions factor significand) (factor, significand) }
    {
        let sound = SoundFactor::new(factor)?;
        if significand_out(sound.precision(), significand) {
            return Err(Refusal::SignificandOutOfRange);
        }
        Ok(Operands {
            factor,
            significand,
        })
    }

    // The factor's precision, which was accepted.
    pub fn precision(self) -> Precision
        ensures { result.bits ≡ self.factor.precision }
    {
        SoundFactor {
            factor: self.factor,
        }
        .precision()
    }

    // The size of u1 = RN(Cl * x), in the unit 2 ^ - (E + n - 1), in which all that follows is a whole number.
    fn first_units(self) -> u64
        ensures { result ≡ first_units (context_of self.factor) (unit_parts_of (context_of self.factor) self.factor.parts) self.significand }
    {
        let parts = self.factor.parts;
        let exact = parts.low.unsigned_abs() * self.significand;
        if exact == 0 {
            return 0;
        }
        let dropped = wide::word_digits(exact) - self.factor.precision;
        let near = round::nearest_word(exact, dropped, TieRule::ToEven);
        near.value << (dropped + self.precision().scale() - parts.places)
    }

    // Ch * x + u1, the sum and the product exact; u1 is given, by its size in that unit.
    fn fused_units(self, u1: u64) -> Wide
        requires { u1 ≡ first_units (context_of self.factor) (unit_parts_of (context_of self.factor) self.factor.parts) self.significand }
        ensures { value_of result ≡ fused_units (context_of self.factor) (unit_parts_of (context_of self.factor) self.factor.parts) self.significand }
    {
        let parts = self.factor.parts;
        let high = Wide::from(parts.high * self.significand) << self.precision().step_exponent();
        let first = Wide::from(u1);
        if parts.low < 0 {
            return high - first;
        }
        high + first
    }

    // The second step, u2 = RN(Ch * x + u1) with its direction, where u1 is known.
    pub fn second_step(self, u1: u64) -> Directed<Product>
        requires { u1 ≡ first_units (context_of self.factor) (unit_parts_of (context_of self.factor) self.factor.parts) self.significand }
        ensures { result ≡ directed_on Device.TwoStep self.factor self.significand }
    {
        rounded_units(self.precision(), self.fused_units(u1))
    }

    // Both steps.
    fn two_steps(self) -> Directed<Product>
        ensures { result ≡ directed_on Device.TwoStep self.factor self.significand }
    {
        self.second_step(self.first_units())
    }

    // RN(Ch * x), and its direction, in steps of binade 0, 2 ^ (1 - n): in the unit 2 ^ - 2(n - 1) Ch * x is a whole number, and n - 1 digits stand behind such a step.
    fn steps_once(self) -> Directed<u64>
        ensures { result ≡ record { value = steps_of (one_step_by self.factor self.significand); direction = direction_on Device.OneStep self.factor self.significand } }
    {
        let n = self.factor.precision;
        let k = n - 1;
        let cut = round::cut_word(self.factor.parts.high * self.significand, k);
        round::round_cut(cut, k, n, TieRule::ToEven)
    }

    // The same as a significand and a binade, with its direction.
    pub fn one_step(self) -> Directed<Product>
        ensures { result ≡ directed_on Device.OneStep self.factor self.significand }
    {
        let near = self.steps_once();
        let value = if near.value < wide::power(self.factor.precision) {
            Product {
                significand: near.value,
                binade: 0,
            }
        } else {
            Product {
                significand: near.value / 2,
                binade: 1,
            }
        };
        Directed {
            value,
            direction: near.direction,
        }
    }

    // The product on a device.
    pub fn product_on(self, d: Device) -> Directed<Product>
        ensures { result ≡ directed_on d self.factor self.significand }
    {
        match d {
            Device::TwoStep => self.two_steps(),
            Device::OneStep => self.one_step(),
        }
    }

    // The product on a device in steps of binade 0: what a tally compares.
    pub fn steps_on(self, d: Device) -> u64
        ensures { result ≡ steps_of (product_on d self.factor self.significand) }
    {
        match d {
            Device::TwoStep => self.two_steps().value.steps(),
            Device::OneStep => self.steps_once().value,
        }
    }

    // The mark of a value, whoever made it, by what both ends times x round to. The ends are close: what the upper product has more is one word.
    pub fn mark_of(self, v: Product) -> Mark
        requires { HasBits self.factor.precision v.significand × (v.binade ≤ 1) }
        ensures { result ≡ mark_by self.factor self.significand v }
    {
        let p = self.precision();
        let lower = wide::product_by_digit(self.factor.lower, self.significand);
        let upper = lower + Wide::from((self.factor.upper - self.factor.lower) * self.significand);
        compared(end_steps(p, lower), end_steps(p, upper), v.steps())
    }

    // The mark of the two-step product: what a sweep asks of a suspect.
    pub fn trial(self) -> Mark
        ensures { result ≡ mark_by self.factor self.significand (product_by self.factor self.significand) }
    {
        self.mark_of(self.two_steps().value)
    }

    // A value, whoever made it, with its mark, and with the factor's sign put on.
    pub fn marked(self, v: Directed<Product>) -> Marked<Signed<Product>>
        requires { HasBits self.factor.precision v.value.significand × (v.value.binade ≤ 1) }
        ensures { result ≡ answered self.factor (markedBy self.factor self.significand v) }
    {
        Marked {
            mark: self.mark_of(v.value),
            value: round::to_signed(self.factor.minus, v),
        }
    }
}

// ---- the same of a factor and a significand, where both facts are shown at the call
// The second step, where u1 is known.
pub fn second_step(f: Factor, x: u64, u1: u64) -> Directed<Product>
    requires { Sound f × HasBits f.precision x × (u1 ≡ first_units (context_of f) (unit_parts_of (context_of f) f.parts) x) }
    ensures { result ≡ directed_on Device.TwoStep f x }
{
    Operands {
        factor: f,
        significand: x,
    }
    .second_step(u1)
}

// RN(Ch * x).
pub fn one_step(f: Factor, x: u64) -> Directed<Product>
    requires { Sound f × HasBits f.precision x }
    ensures { result ≡ directed_on Device.OneStep f x }
{
    Operands {
        factor: f,
        significand: x,
    }
    .one_step()
}

// The product on a device in steps of binade 0.
pub fn steps_on(d: Device, f: Factor, x: u64) -> u64
    requires { Sound f × HasBits f.precision x }
    ensures { result ≡ steps_of (product_on d f x) }
{
    Operands {
        factor: f,
        significand: x,
    }
    .steps_on(d)
}

// The mark of a value, whoever made it.
pub fn mark_of(f: Factor, x: u64, v: Product) -> Mark
    requires { Sound f × HasBits f.precision x × HasBits f.precision v.significand × (v.binade ≤ 1) }
    ensures { result ≡ mark_by f x v }
{
    Operands {
        factor: f,
        significand: x,
    }
    .mark_of(v)
}

// The mark of the two-step product.
pub fn trial(f: Factor, x: u64) -> Mark
    requires { Sound f × HasBits f.precision x }
    ensures { result ≡ mark_by f x (product_by f x) }
{
    Operands {
        factor: f,
        significand: x,
    }
    .trial()
}

// A value, whoever made it, with its mark, and with the factor's sign put on.
pub fn marked(f: Factor, x: u64, v: Directed<Product>) -> Marked<Signed<Product>>
    requires { Sound f × HasBits f.precision x × HasBits f.precision v.value.significand × (v.value.binade ≤ 1) }
    ensures { result ≡ answered f (markedBy f x v) }
{
    Operands {
        factor: f,
        significand: x,
    }
    .marked(v)
}

// Multiplies a significand on a device: the product with its sign and its mark, or refusal 31 for the factor, or 17 for the significand.
pub fn multiply(d: Device, f: Factor, x: u64) -> Result<Marked<Signed<Product>>, Refusal>
    ensures { said result ≡ multiplied d f x }
{
    let o = Operands::new(f, x)?;
    Ok(o.marked(o.product_on(d)))
}
