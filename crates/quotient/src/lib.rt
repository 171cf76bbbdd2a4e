// The quotient of a significand by a factor's high part, rounded once, with the direction of that rounding and the factor's sign: what a tape that is graduated in diameter gives back as a girth.

#![tactic(auto)]

ghost use Rattle.std.specs.Prelude.{◌≡◌};
ghost use Rattle.marks.specs.Answers.{said};
ghost use Rattle.rounding.specs.Round.{HasBits};
ghost use Rattle.factor.specs.SetUp.{Sound};
ghost use Rattle.quotient.specs.Quotient.{directed_by};
ghost use Rattle.quotient.specs.Answer.{divided};

use factor::Factor;
use marks::Refusal;
use product::Operands;
use rounding::{Directed, Signed, TieRule};

// A quotient's size, from 1/2 to below 2: a significand of n bits, and its binade, -1 for [1/2, 1) and 0 for [1, 2).
#[derive(Clone, Copy, Debug, PartialEq, Eq)]
pub struct Quotient {
    pub significand: u64,
    pub binade: i32,
}

// RN(x / Ch) and its direction. It lies one binade below 1 where the significand is below the high part, and has one digit more behind the point there, so that n digits come out of the one division.
pub fn quotient_of(f: Factor, x: u64) -> Directed<Quotient>
    requires { Sound f × HasBits f.precision x }
    ensures { result ≡ directed_by f x }
{
    let high = f.parts.high;
    let below = (x < high) as u32;
    let scaled = x << (f.precision - 1 + below);
    let near = round::nearest_quotient(scaled, high, TieRule::ToEven);
    let value = Quotient {
        significand: near.value,
        binade: -(below as i32),
    };
    Directed {
        value,
        direction: near.direction,
    }
}

// Divides a significand: the quotient with its sign, which has no mark, or refusal 31 for the factor, or 17 for the significand.
pub fn divide(f: Factor, x: u64) -> Result<Signed<Quotient>, Refusal>
    ensures { said result ≡ divided f x }
{
    let o = Operands::new(f, x)?;
    Ok(round::to_signed(o.factor.minus, quotient_of(o.factor, o.significand)))
}
