// The four-corner shift of one cell (USGS Bulletin 1875-B, equation 2): what it is, and its laws. The routine itself is private to
// `convert`, which checks the grid before it reads a corner. Distances are in thousandths of an arc second.
#![tactic(auto)]

ghost use Rattle.std.specs.Prelude.{◌≡◌};
ghost use Rattle.shift.specs.Sign.{sign_of, sign_number};

use std::cmp::Ordering;

// A point's distances from the sides of its cell: A and B from its west and east side, C and D from its south and north side.
#[derive(Clone, Copy)]
pub struct Distances {
    pub a: usize,
    pub b: usize,
    pub c: usize,
    pub d: usize,
}

// One component's shifts at the corners of a cell: S1 southwest, S2 southeast, S3 northwest, S4 northeast.
#[derive(Clone, Copy)]
pub struct Corners {
    pub s1: i64,
    pub s2: i64,
    pub s3: i64,
    pub s4: i64,
}

// The cell of a point: the row and column of its southwest node, and the point's distances from its sides.
#[derive(Clone, Copy)]
pub struct Cell {
    pub row: usize,
    pub col: usize,
    pub distances: Distances,
}

// The exact shift at a point: for each component a numerator, over one denominator.
#[derive(Clone, Copy)]
pub struct ExactShift {
    pub lat: i64,
    pub lon: i64,
    pub denominator: usize,
}

// The rounded shift: NAD 83 minus NAD 27, in hundred-thousandths of an arc second.
#[derive(Clone, Copy, PartialEq, Eq)]
pub struct Shift {
    pub lat: i64,
    pub lon: i64,
}

// For each component the sign of the rounded shift minus the exact fraction: zero where the shift is exact.
#[derive(Clone, Copy, PartialEq, Eq)]
pub struct Signs {
    pub lat: Sign,
    pub lon: Sign,
}

#[derive(Clone, Copy, PartialEq, Eq)]
pub enum Sign {
    Negative,
    Zero,
    Positive,
}

// The sign of a number.
impl From<i64> for Sign {
    ghost from_gives = { λ x s. s ≡ sign_of x };

    fn from(x: i64) -> Sign {
        match x.cmp(&0) {
            Ordering::Less => Sign::Negative,
            Ordering::Equal => Sign::Zero,
            Ordering::Greater => Sign::Positive,
        }
    }
}

// -1, 0 or 1.
impl From<Sign> for i64 {
    ghost from_gives = { λ s x. x ≡ sign_number s };

    fn from(sign: Sign) -> i64 {
        match sign {
            Sign::Negative => -1,
            Sign::Zero => 0,
            Sign::Positive => 1,
        }
    }
}
