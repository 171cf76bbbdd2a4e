// The tally: how many significands of a range are right, wrong and open on the one-step device, so that an office sees what an old unit costs.

#![tactic(auto)]

ghost use Rattle.std.specs.Prelude.{◌≡◌, ◌*◌, ◌<◌, ◌^◌};
ghost use Rattle.marks.specs.Answers.{said};
ghost use Rattle.round.specs.Cuts.{cut_at};
ghost use Rattle.factor.specs.Context.{context_of, lower_of, upper_of};
ghost use Rattle.product.specs.Answer.{InRange};
ghost use Rattle.tally.specs.Tally.{with_one, counts_of, mark_once, span_length, tallied};

use factor::{Factor, SoundFactor};
use marks::{Mark, Refusal};
use product::{Device, Operands};
use round::Cut;
use rounding::TieRule;

// So many significands go into one tally.
const MOST_TALLIED: u64 = 65536;

// How many significands of a range are right, wrong and open.
#[derive(Clone, Copy, Debug, PartialEq, Eq)]
pub struct Counts {
    pub rights: u64,
    pub wrongs: u64,
    pub opens: u64,
}

impl Counts {
    // A tally with one significand more, of a mark.
    fn with_one(self, m: Mark) -> Counts
        requires { (self.rights < 2 ^ 32) × (self.wrongs < 2 ^ 32) × (self.opens < 2 ^ 32) }
        ensures { result ≡ with_one self m }
    {
        match m {
            Mark::Right => Counts {
                rights: self.rights + 1,
                ..self
            },
            Mark::Wrong => Counts {
                wrongs: self.wrongs + 1,
                ..self
            },
            Mark::Open => Counts {
                opens: self.opens + 1,
                ..self
            },
        }
    }
}

// The one-step product's mark, given both ends times the significand, each cut behind its step of binade 0: a mark compares whole numbers of such steps.
fn mark_once(o: Operands, lower: Cut, upper: Cut) -> Mark
    requires { (lower ≡ cut_at (context_of o.factor).E (lower_of o.factor * o.significand)) × (upper ≡ cut_at (context_of o.factor).E (upper_of o.factor * o.significand)) }
    ensures { result ≡ mark_once o.factor o.significand }
{
    let n = o.factor.precision;
    let e = o.precision().scale();
    product::compared(
        round::round_cut(lower, e, n, TieRule::ToEven).value,
        round::round_cut(upper, e, n, TieRule::ToEven).value,
        o.steps_on(Device::OneStep),
    )
}

// The tally of a range in which all significands are of the factor. From one to the next both ends' products grow by the end itself, so no two-word product is made but for the first.
fn count(f: SoundFactor, first: u64, last: u64) -> Counts
    requires { InRange f.factor.precision first last }
    ensures { result ≡ counts_of (mark_once f.factor) first (span_length first last) }
{
    let e = f.precision().scale();
    let factor = f.factor;
    let lower_step = round::cut_word(factor.lower, e);
    let upper_step = round::cut_word(factor.upper, e);
    let mut lower = round::cut_wide(wide::product_by_digit(factor.lower, first), e);
    let mut upper = round::cut_wide(wide::product_by_digit(factor.upper, first), e);
    let mut t = Counts {
        rights: 0,
        wrongs: 0,
        opens: 0,
    };
    for x in first..=last {
        let o = Operands {
            factor,
            significand: x,
        };
        t = t.with_one(mark_once(o, lower, upper));
        lower = round::cut_sum(lower, lower_step, e);
        upper = round::cut_sum(upper, upper_step, e);
    }
    t
}

// Tallies a range on the one-step device, both ends included: how many significands are right, wrong and open, or the first refusal whose condition holds: 31 by the factor, 17 by the range, then 41 by its length.
pub fn tally_range(f: Factor, first: u64, last: u64) -> Result<Counts, Refusal>
    ensures { said result ≡ tallied f first last }
{
    let sound = SoundFactor::new(f)?;
    if product::range_out(sound.precision(), first, last) {
        return Err(Refusal::SignificandOutOfRange);
    }
    if MOST_TALLIED < last - first + 1 {
        return Err(Refusal::RangeTooLong);
    }
    Ok(count(sound, first, last))
}
