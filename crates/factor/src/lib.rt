// A factor known only between two ends: its precision, its high and low part, and every refusal of one.

#![tactic(auto)]

ghost use Rattle.std.specs.Prelude.{◌≡◌, suc, ◌+◌, ◌-◌, ◌<◌, ◌≤◌, ◌^◌, false, ◌||◌, ltb, nat_abs};
ghost use Rattle.marks.specs.Answers.{said, each};
ghost use Rattle.std.specs.Float.Ieee;
ghost use Rattle.std.specs.Float.{binary32};
ghost use Rattle.wide.specs.Value.{half_word};
ghost use Rattle.rounding.specs.Apart.{apart};
ghost use Rattle.rounding.specs.Signed.{negative, signed_of};
ghost use Rattle.factor.specs.Precision.{ValidPrecision, scale_of, rounds_of, precision_out, new_precision, least_of, most_of};
ghost use Rattle.factor.specs.Context.{context_at};
ghost use Rattle.factor.specs.UnitParts.{parts_from};
ghost use Rattle.factor.specs.Ends.{End};
ghost use Rattle.factor.specs.Parts.{parts_at};
ghost use Rattle.factor.specs.SetUp.{end_out, scale_out, same_applied, stores_just, stored_of, set_up, described, Sound, intact, checked};
ghost use Rattle.factor.specs.Stored.{LowStorable, Storable, applied_from};

use marks::Refusal;
use rounding::TieRule;

// A factor as an office describes it: sign, precision, scale and both ends, none of them judged yet. The ends describe the size.
#[derive(Clone, Copy, Debug, PartialEq, Eq)]
pub struct Description {
    pub minus: bool,
    pub precision: u32,
    pub scale: i32,
    pub lower: u64,
    pub upper: u64,
}

// A precision n that was accepted: how many bits a significand has. What belongs to a precision is named here, once.
#[derive(Clone, Copy)]
pub struct Precision {
    pub bits: u32,
    ghost valid: { ValidPrecision bits },
}

// The parts of a factor at one end: the high significand over 2 ^ (n - 1), and the low significand, signed, over 2 ^ places.
#[derive(Clone, Copy, Debug, PartialEq, Eq)]
pub struct Parts {
    pub high: u64,
    pub low: i64,
    pub places: u32,
}

// What a handheld applies: high and low part as binary32 numbers, and the scale. A zero low part is plus zero.
#[derive(Clone, Copy)]
pub struct Applied {
    pub high: f32,
    pub low: f32,
    pub scale: i32,
}

// What is stored of a factor's size: the parts, and what a handheld applies.
#[derive(Clone, Copy)]
pub struct Stored {
    pub parts: Parts,
    pub applied: Applied,
}

// A factor: whether it lies below zero, precision, both ends, the parts, and what a handheld applies. All but the sign are those of the size. Its fields may be damaged.
#[derive(Clone, Copy)]
pub struct Factor {
    pub minus: bool,
    pub precision: u32,
    pub lower: u64,
    pub upper: u64,
    pub parts: Parts,
    pub applied: Applied,
}

// A factor that 31 lets through.
#[derive(Clone, Copy)]
pub struct SoundFactor {
    pub factor: Factor,
    ghost sound: { Sound factor },
}

impl Precision {
    // The limits of a precision.
    pub const LEAST: u32 = 4;

    pub const MOST: u32 = 24;
    // The scale of the ends, and the most rounds of a search: what follows from them are methods.
    const SCALE: u32 = 62;

    const ROUNDS: u64 = 64;
    // A precision, or refusal 11 where it is not 4 to 24.
    pub fn new(bits: u32) -> Result<Precision, Refusal>
        ensures { each (λ p. p.bits) (said result) ≡ new_precision bits }
    {
        if bits < Precision::LEAST || Precision::MOST < bits {
            return Err(Refusal::PrecisionOutOfRange);
        }
        Ok(Precision { bits })
    }

    // The least significand, 2 ^ (n - 1).
    pub fn least(self) -> u64
        ensures { result ≡ least_of self.bits }
    {
        wide::power(self.bits - 1)
    }

    // The largest significand, 2 ^ n - 1.
    pub fn most(self) -> u64
        ensures { result ≡ most_of self.bits }
    {
        wide::power(self.bits) - 1
    }

    // The scale E of the ends, which are whole numbers over 2 ^ E.
    pub fn scale(self) -> u32
        ensures { result ≡ scale_of self.bits }
    {
        Precision::SCALE
    }

    // Digits dropped of a product below 2, counted in the unit 2 ^ - (E + n - 1).
    pub fn low_dropped(self) -> u32
        ensures { result ≡ scale_of self.bits }
    {
        self.scale()
    }

    // And of one from 2 on.
    pub fn high_dropped(self) -> u32
        ensures { result ≡ scale_of self.bits + 1 }
    {
        self.scale() + 1
    }

    // The least end, 2 ^ E, which stands for 1.
    pub fn least_end(self) -> u64
        ensures { result ≡ 2 ^ scale_of self.bits }
    {
        wide::power(self.scale())
    }

    // The number past the largest end, 2 ^ (E + 1), which stands for 2.
    pub fn past_end(self) -> u64
        ensures { result ≡ 2 ^ suc (scale_of self.bits) }
    {
        wide::power(self.high_dropped())
    }

    // The exponent of the high significand's step in the unit of the ends, E + 1 - n.
    pub fn step_exponent(self) -> u32
        ensures { result ≡ scale_of self.bits + 1 - self.bits }
    {
        self.scale() + 1 - self.bits
    }

    // The exponent of the window W, E - n.
    pub fn window_exponent(self) -> u32
        ensures { result ≡ scale_of self.bits - self.bits }
    {
        self.scale() - self.bits
    }

    // A search takes at most so many rounds, at a precision of so many bits.
    pub fn rounds(bits: u32) -> u64
        ensures { result ≡ rounds_of bits }
    {
        Precision::ROUNDS
    }

    // Refusal 12: an end not 2 ^ E to 2 ^ (E + 1) - 1.
    fn end_out(self, end: u64) -> bool
        ensures { result ≡ end_out (context_at self.bits) end }
    {
        end < self.least_end() || self.past_end() <= end
    }

    // The parts from the high significand and the rest: the low part is the rest rounded, its exact sign kept.
    fn parts_from(self, high: u64, rest: i64) -> Parts
        requires { nat_abs rest ≤ 2 ^ (scale_of self.bits - self.bits) }
        ensures { result ≡ parts_from (context_at self.bits) high rest }
    {
        let r = round::round_signed(rest, self.bits, TieRule::ToEven);
        let places = if rest == 0 {
            0
        } else {
            (self.scale() as i32 - r.exponent) as u32
        };
        Parts {
            high,
            low: r.significand,
            places,
        }
    }

    // The parts at one end.
    pub fn parts_at(self, end: u64) -> Parts
        requires { End (context_at self.bits) end }
        ensures { result ≡ parts_at (context_at self.bits) end }
    {
        let k = self.step_exponent();
        let high = round::nearest_word(end, k, TieRule::ToEven).value;
        self.parts_from(high, rest_of(end, high << k))
    }

    // The low part as a binary32 number; a zero low part is plus zero.
    fn low_float(self, low: i64, places: u32) -> f32
        requires { LowStorable (context_at self.bits) low places }
        ensures { result ≡ Ieee.round binary32 (negative low) (nat_abs low) (2 ^ places) }
    {
        match low.unsigned_abs() {
            0 => floats::zero(false),
            size => floats::narrow_float(low < 0, self.bits, size, places),
        }
    }

    // What a handheld applies, from the parts.
    fn stored_parts(self, parts: Parts, scale: i32) -> Applied
        requires { Storable (context_at self.bits) parts }
        ensures { result ≡ applied_from self.bits scale parts }
    {
        Applied {
            high: floats::narrow_float(false, self.bits, parts.high, self.bits - 1),
            low: self.low_float(parts.low, parts.places),
            scale,
        }
    }
}

// C - Ch in the unit of the ends, signed.
fn rest_of(end: u64, whole: u64) -> i64
    requires { apart end whole < half_word }
    ensures { result ≡ signed_of (ltb end whole) (apart end whole) }
{
    round::with_sign(end < whole, end.abs_diff(whole))
}

// Refusal 14: scale not -100 to 100.
fn scale_out(scale: i32) -> bool
    ensures { result ≡ scale_out scale }
{
    !matches!(scale, -100..=100)
}

// What a description's size sets up, which its sign does not change, or the first refusal whose condition holds.
fn stored_of(d: Description) -> Result<Stored, Refusal>
    ensures { said result ≡ stored_of d }
{
    let precision = Precision::new(d.precision)?;
    if precision.end_out(d.lower) || precision.end_out(d.upper) {
        return Err(Refusal::EndOutOfRange);
    }
    if d.upper < d.lower {
        return Err(Refusal::EndsOutOfOrder);
    }
    if scale_out(d.scale) {
        return Err(Refusal::ScaleOutOfRange);
    }
    let parts = precision.parts_at(d.lower);
    let other = precision.parts_at(d.upper);
    if parts.high != other.high {
        return Err(Refusal::HighPartDiffers);
    }
    if parts != other {
        return Err(Refusal::LowPartDiffers);
    }
    let applied = precision.stored_parts(parts, d.scale);
    Ok(Stored { parts, applied })
}

// Set-up: the factor, or the first refusal whose condition holds.
pub fn set_up(d: Description) -> Result<Factor, Refusal>
    ensures { said result ≡ set_up d }
{
    let stored = stored_of(d)?;
    Ok(Factor {
        minus: d.minus,
        precision: d.precision,
        lower: d.lower,
        upper: d.upper,
        parts: stored.parts,
        applied: stored.applied,
    })
}

impl Applied {
    // Whether what is stored is the same bit for bit.
    fn same_applied(self, other: Applied) -> bool
        ensures { result ≡ same_applied self other }
    {
        floats::same_float(self.high, other.high)
            && floats::same_float(self.low, other.low)
            && self.scale == other.scale
    }
}

impl Factor {
    // Whether a factor stores just this, bit for bit. Of a sign there is nothing to compare.
    fn stores(self, s: Stored) -> bool
        ensures { result ≡ stores_just self s }
    {
        self.parts == s.parts && self.applied.same_applied(s.applied)
    }
}

// A factor as it would be described.
impl From<Factor> for Description {
    ghost from_gives = { λ f d. d ≡ described f };

    fn from(f: Factor) -> Description {
        Description {
            minus: f.minus,
            precision: f.precision,
            scale: f.applied.scale,
            lower: f.lower,
            upper: f.upper,
        }
    }
}

// The check behind refusal 31: whether a factor's stored parts are those that its ends, precision and scale set up, and those are not refused.
pub fn is_intact(f: Factor) -> bool
    ensures { result ≡ intact f }
{
    stored_of(Description::from(f)).is_ok_and(|s| f.stores(s))
}

impl SoundFactor {
    // A factor, or refusal 31.
    pub fn new(factor: Factor) -> Result<SoundFactor, Refusal>
        ensures { each (λ f. f.factor) (said result) ≡ checked factor }
    {
        if !is_intact(factor) {
            return Err(Refusal::FactorDamaged);
        }
        Ok(SoundFactor { factor })
    }

    // Its precision, which was accepted.
    pub fn precision(self) -> Precision
        ensures { result.bits ≡ self.factor.precision }
    {
        Precision {
            bits: self.factor.precision,
        }
    }
}
