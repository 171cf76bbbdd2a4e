// What answers are made of: the mark of a product, and why a call is refused. specs/ has what every answer says, refused or not.

#![tactic(auto)]

ghost use Rattle.std.specs.Prelude.{◌≡◌};
ghost use Rattle.marks.specs.Answers.{number_of};

// The mark of a product: whether it is what the factor times the significand rounds to.
#[derive(Clone, Copy, Debug, PartialEq, Eq)]
pub enum Mark {
    // for every fraction between the ends
    Right,
    // for some of them and not for others
    Open,
    // for none
    Wrong,
}

// A value with its mark.
#[derive(Clone, Copy, Debug, PartialEq, Eq)]
pub struct Marked<T> {
    pub mark: Mark,
    pub value: T,
}

// Why a call is refused. An answer to another language tells the refusal's number (`number_of`).
#[derive(Clone, Copy, Debug, PartialEq, Eq)]
pub enum Refusal {
    // 11: a precision not 4 to 24
    PrecisionOutOfRange,
    // 12: an end not from 1 to below 2
    EndOutOfRange,
    // 13: the lower end above the upper one
    EndsOutOfOrder,
    // 14: a scale not -100 to 100
    ScaleOutOfRange,
    // 15: the high part is not the same at both ends
    HighPartDiffers,
    // 16: nor the low part
    LowPartDiffers,
    // 17: a significand not of the precision's digits, or a range's first above its last
    SignificandOutOfRange,
    // 18: a cap of 0
    NoCap,
    // 19: the first free place at or past the list's end
    NoFreePlace,
    // 20: the factor's precision is not the reading's
    OtherPrecision,
    // 21: an infinite reading, or one that is no number
    NotFinite,
    // 22: a subnormal reading
    Subnormal,
    // 23: no normal number has the answer's exponent
    ExponentOutOfRange,
    // 24: a line that is no frame
    NotAFrame,
    // 31: the factor's stored parts are not those that it sets up
    FactorDamaged,
    // 32: a state outside its range
    StateOutOfRange,
    // 33: the sweep is finished
    SweepFinished,
    // 41: a range too long for a tally
    RangeTooLong,
    // 42: a kit with no factor, or too many
    KitOutOfRange,
    // 43: two factors of a kit alike
    FactorsAlike,
    // 44: fewer than two free places
    TooFewPlaces,
}

impl From<Refusal> for u32 {
    ghost from_gives = { λ r n. n ≡ number_of r };

    fn from(refusal: Refusal) -> u32 {
        match refusal {
            Refusal::PrecisionOutOfRange => 11,
            Refusal::EndOutOfRange => 12,
            Refusal::EndsOutOfOrder => 13,
            Refusal::ScaleOutOfRange => 14,
            Refusal::HighPartDiffers => 15,
            Refusal::LowPartDiffers => 16,
            Refusal::SignificandOutOfRange => 17,
            Refusal::NoCap => 18,
            Refusal::NoFreePlace => 19,
            Refusal::OtherPrecision => 20,
            Refusal::NotFinite => 21,
            Refusal::Subnormal => 22,
            Refusal::ExponentOutOfRange => 23,
            Refusal::NotAFrame => 24,
            Refusal::FactorDamaged => 31,
            Refusal::StateOutOfRange => 32,
            Refusal::SweepFinished => 33,
            Refusal::RangeTooLong => 41,
            Refusal::KitOutOfRange => 42,
            Refusal::FactorsAlike => 43,
            Refusal::TooFewPlaces => 44,
        }
    }
}
