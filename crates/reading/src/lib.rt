// A binary32 reading times a factor, on either device: the product with its mark, or a refusal; and divided by it: the quotient, or a refusal. Every answer, a zero too, has the sign that the standard gives the product or quotient of reading and factor, and the direction of its last rounding.

#![tactic(auto)]

ghost use Rattle.std.specs.Prelude.{◌≡◌, ℕ, ◌≤◌, nat_abs, ◌+ℤ◌};
ghost use Rattle.std.specs.Float.{binary32};
ghost use Rattle.std.specs.Float.Ieee.{prec, to_bits};
ghost use Rattle.marks.specs.declared.Mark.{Mark};
ghost use Rattle.marks.specs.Answers.{NoneHolds, said, each, answer};
ghost use Rattle.rounding.specs.Round.{HasBits};
ghost use Rattle.floats.specs.Fields.{significand_of, exponent_of};
ghost use Rattle.factor.specs.Context.{context_of};
ghost use Rattle.factor.specs.UnitParts.{unit_parts_of};
ghost use Rattle.product.specs.Devices.{directed_on};
ghost use Rattle.product.specs.Units.{first_units};
ghost use Rattle.reading.specs.Reading.{unreadable, kind_of, sign_with, directed_zero, placed, finished, applied, outcome_of};
ghost use Rattle.quotient.specs.Quotient.{directed_by};
ghost use Rattle.reading.specs.Divided.{placed_quotient, divided_reading};

use factor::Factor;
use marks::{Mark, Marked, Refusal};
use product::{Device, Operands, Product};
use rounding::{Directed, Direction};

// The biased exponents of normal numbers.
const LEAST_EXPONENT: i32 = 1;

const MOST_EXPONENT: i32 = floats::INFINITE_OR_NAN as i32 - 1;

// The answer to a reading: the product as a binary32 number, with its direction, in the case of its mark, or the number of a refusal: 31, 20, 21, 22 or 23.
#[derive(Clone, Copy)]
pub enum ReadingAnswer {
    Right(f32, Direction),
    Open(f32, Direction),
    Wrong(f32, Direction),
    Refused(u32),
}

impl From<Result<Marked<Directed<f32>>, Refusal>> for ReadingAnswer {
    ghost from_gives = { λ r a. outcome_of a ≡ said r };

    fn from(answer: Result<Marked<Directed<f32>>, Refusal>) -> ReadingAnswer {
        match answer {
            Ok(a) => {
                let y = a.value;
                match a.mark {
                    Mark::Right => ReadingAnswer::Right(y.value, y.direction),
                    Mark::Open => ReadingAnswer::Open(y.value, y.direction),
                    Mark::Wrong => ReadingAnswer::Wrong(y.value, y.direction),
                }
            }
            Err(refusal) => ReadingAnswer::Refused(refusal.into()),
        }
    }
}

// What a reading is that is let through: a zero or a normal number.
#[derive(Clone, Copy, Debug, PartialEq, Eq)]
enum Kind {
    Zero,
    Normal,
}

// A reading, by its bits, and the factor that it is multiplied with or divided by: none of the refusals 31, 20, 21 and 22 stands against them.
#[derive(Clone, Copy)]
struct Taken {
    factor: Factor,
    bits: u32,
    ghost readable: { NoneHolds (unreadable factor bits) },
}

impl Taken {
    // A reading as it is judged before any work, or the first of the refusals 31, 20, 21 and 22 whose condition holds.
    #[tactic(auto, unfolding(marks::specs::Answers::answer))]
    fn new(factor: Factor, reading: f32) -> Result<Taken, Refusal>
        ensures { each {B = Factor × ℕ} (λ t. (t.factor, t.bits)) (said result) ≡ answer (unreadable factor (to_bits binary32 reading)) (factor, to_bits binary32 reading) }
    {
        if !factor::is_intact(factor) {
            return Err(Refusal::FactorDamaged);
        }
        if factor.precision != floats::PRECISION {
            return Err(Refusal::OtherPrecision);
        }
        let bits = floats::bits_of(reading);
        let field = floats::biased_exponent(bits);
        let digits = floats::trailing_significand(bits);
        if field == floats::INFINITE_OR_NAN {
            return Err(Refusal::NotFinite);
        }
        if field == 0 && digits != 0 {
            return Err(Refusal::Subnormal);
        }
        Ok(Taken { factor, bits })
    }

    // Whether the reading is a zero.
    fn kind(self) -> Kind
        ensures { result ≡ kind_of self.bits }
    {
        if floats::biased_exponent(self.bits) == 0 {
            Kind::Zero
        } else {
            Kind::Normal
        }
    }

    // The sign of its product or quotient, by its own and the factor's; a zero has it too.
    fn sign(self) -> bool
        ensures { result ≡ sign_with self.factor self.bits }
    {
        floats::is_minus(self.bits) != self.factor.minus
    }

    // The factor and the significand: what a device multiplies.
    fn operands(self) -> Operands
        ensures factor { result.factor ≡ self.factor }
        ensures significand { result.significand ≡ significand_of binary32 self.bits }
    {
        Operands {
            factor: self.factor,
            significand: floats::significand_of(self.bits) as u64,
        }
    }

    // u1 = RN(Cl * x): one binary32 multiplication on [1, 2).
    fn first_step(self) -> u64
        ensures { result ≡ first_units (context_of self.factor) (unit_parts_of (context_of self.factor) self.factor.parts) (significand_of binary32 self.bits) }
    {
        let p = self.operands().precision();
        let x = floats::significand_of(self.bits);
        let unit = floats::unit_at(p.scale());
        let y = floats::narrow_float(false, floats::PRECISION, x as u64, floats::PRECISION - 1);
        floats::units_of(self.factor.applied.low * y, unit)
    }

    // The product of a normal reading's significand on a device: u1 is one binary32 multiplication.
    fn product_on(self, d: Device) -> Directed<Product>
        ensures { result ≡ directed_on d self.factor (significand_of binary32 self.bits) }
    {
        let o = self.operands();
        match d {
            Device::TwoStep => o.second_step(self.first_step()),
            Device::OneStep => o.one_step(),
        }
    }

    // A rounded significand at the reading's exponent, raised, with the sign put on last, which mirrors a negative number's direction; 23 where no normal number has that exponent.
    fn place(self, raise: i32, significand: u64, d: Direction) -> Result<Directed<f32>, Refusal>
        requires { (nat_abs raise ≤ 101) × HasBits (prec binary32) significand }
        ensures { said result ≡ placed (sign_with self.factor self.bits) significand (exponent_of binary32 self.bits +ℤ raise) d }
    {
        let exponent = floats::biased_exponent(self.bits) as i32 + raise;
        if exponent < LEAST_EXPONENT || MOST_EXPONENT < exponent {
            return Err(Refusal::ExponentOutOfRange);
        }
        let minus = self.sign();
        Ok(Directed {
            value: floats::float_of(
                minus,
                (exponent - LEAST_EXPONENT) as u32,
                significand as u32,
            ),
            direction: round::signed_direction(minus, d),
        })
    }

    // What becomes of a product of a normal reading's significand, whoever made it: k plus the binade is put on the exponent, and 23 is judged whatever the mark.
    fn finish(self, v: Directed<Product>) -> Result<Marked<Directed<f32>>, Refusal>
        requires { HasBits (prec binary32) v.value.significand × (v.value.binade ≤ 1) }
        ensures { said result ≡ finished self.factor self.bits v }
    {
        let raise = self.factor.applied.scale + v.value.binade as i32;
        let value = self.place(raise, v.value.significand, v.direction)?;
        let mark = self.operands().mark_of(v.value);
        Ok(Marked { mark, value })
    }

    // What a zero gives: a zero with the sign of both, equal.
    fn zero(self) -> Directed<f32>
        ensures { result ≡ directed_zero (sign_with self.factor self.bits) }
    {
        Directed {
            value: floats::zero(self.sign()),
            direction: Direction::Equal,
        }
    }

    // What a zero that is multiplied is answered with: that is right.
    fn zero_read(self) -> Marked<Directed<f32>>
        ensures { result ≡ record { mark = Mark.Right; value = directed_zero (sign_with self.factor self.bits) } }
    {
        Marked {
            mark: Mark::Right,
            value: self.zero(),
        }
    }

    // The quotient of a normal reading's significand, with the binade less k put on the exponent, or 23.
    fn divided(self) -> Result<Directed<f32>, Refusal>
        ensures { said result ≡ placed_quotient self.factor self.bits (directed_by self.factor (significand_of binary32 self.bits)) }
    {
        let o = self.operands();
        let v = quotient::quotient_of(o.factor, o.significand);
        self.place(
            v.value.binade - self.factor.applied.scale,
            v.value.significand,
            v.direction,
        )
    }
}

// A reading on a device: the product with its mark and direction, or the first of the refusals 31, 20, 21, 22 and 23 whose condition holds.
fn multiplied(d: Device, f: Factor, reading: f32) -> Result<Marked<Directed<f32>>, Refusal>
    ensures { said result ≡ applied d f reading }
{
    let taken = Taken::new(f, reading)?;
    match taken.kind() {
        Kind::Zero => Ok(taken.zero_read()),
        Kind::Normal => taken.finish(taken.product_on(d)),
    }
}

// Multiplies a reading on a device: the product with its mark and direction, or the first of the refusals 31, 20, 21, 22 and 23 whose condition holds. A zero gives a zero, right and equal, with the sign of the product.
pub fn read(d: Device, f: Factor, reading: f32) -> ReadingAnswer
    ensures { outcome_of result ≡ applied d f reading }
{
    ReadingAnswer::from(multiplied(d, f, reading))
}

// Divides a reading: the quotient with its direction, or the first of the refusals 31, 20, 21, 22 and 23 whose condition holds. A zero gives a zero, equal, with the sign of the quotient.
pub fn divide(f: Factor, reading: f32) -> Result<Directed<f32>, Refusal>
    ensures { said result ≡ divided_reading f reading }
{
    let taken = Taken::new(f, reading)?;
    match taken.kind() {
        Kind::Zero => Ok(taken.zero()),
        Kind::Normal => taken.divided(),
    }
}
