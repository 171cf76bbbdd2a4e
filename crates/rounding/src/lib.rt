// What rounding to n bits answers. The definitions stand in specs/, with their laws in proofs/; the functions are those of the crate `round`.

#![tactic(auto)]

// Where a fraction lies between two neighbouring grid points.
#[derive(Clone, Copy, Debug, PartialEq, Eq)]
pub enum Location {
    Exact,
    BelowHalf,
    Half,
    AboveHalf,
}

// Which neighbour a fraction half way between them goes to (IEEE 754-2019: roundTiesToEven, roundTiesToAway).
#[derive(Clone, Copy, Debug, PartialEq, Eq)]
pub enum TieRule {
    ToEven,
    AwayFromZero,
}

// On which side of what was rounded the rounded number lies, sign included: below it, on it, or above it.
#[derive(Clone, Copy, Debug, PartialEq, Eq)]
pub enum Direction {
    Below,
    Equal,
    Above,
}

// A size rounded to n bits, or a signed number: significand * 2 ^ exponent, the significand's size from 2 ^ (n - 1) to 2 ^ n - 1, and its sign that of what was rounded. Zero is 0 and 0.
// The direction is that from what was rounded to it: a negative number's is its size's, mirrored.
#[derive(Clone, Copy)]
pub struct Rounded<T> {
    pub significand: T,
    pub exponent: i32,
    pub direction: Direction,
}

// A number that was rounded, and on which side of what was rounded it lies.
#[derive(Clone, Copy)]
pub struct Directed<T> {
    pub value: T,
    pub direction: Direction,
}

// A size that was rounded, with a sign: the direction is that of the number that has it.
#[derive(Clone, Copy)]
pub struct Signed<T> {
    pub minus: bool,
    pub value: T,
    pub direction: Direction,
}
