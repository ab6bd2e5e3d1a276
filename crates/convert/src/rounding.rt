// An exact shift rounded, once, and which way each of its components went.
ghost use Rattle.std.specs.Prelude.{◌≡◌, ◌≤◌, ◌<◌};
ghost use Rattle.laws.specs.Parts.{Within};
ghost use Rattle.shift.specs.Round.{round_size, nearest};
ghost use Rattle.shift.specs.Sign.{rounding_sign};
ghost use Rattle.shift.specs.Shift.{rounded_shift, rounding_signs};
ghost use Rattle.shift.specs.Needs.{ExactIn};

use shift::{ExactShift, Shift, Sign, Signs};

pub(crate) fn rounded_shift(e: ExactShift) -> Shift
    requires { ExactIn e }
    ensures { result ≡ rounded_shift e }
{
    Shift {
        lat: rounded(e.lat, e.denominator),
        lon: rounded(e.lon, e.denominator),
    }
}

// For each component the sign of its rounded shift minus the exact one. The way back needs none.
pub(crate) fn signs(e: ExactShift, s: Shift) -> Signs
    requires { (ExactIn e) × (s ≡ rounded_shift e) }
    ensures { result ≡ rounding_signs e s }
{
    Signs {
        lat: rounding_sign(e.lat, e.denominator, s.lat),
        lon: rounding_sign(e.lon, e.denominator, s.lon),
    }
}

// The nearest whole number to `n / d`, a tie to the even one: the size is rounded, and the sign stays.
fn rounded(n: i64, d: usize) -> i64
    requires { (Within 4860000000000000000 n) × (0 < d) × (d ≤ 810000000000) }
    ensures { result ≡ nearest d n }
{
    let size = rounded_size(n.unsigned_abs() as usize, d) as i64;
    if n < 0 { -size } else { size }
}

// By quotient and remainder, since 2n may not fit. An odd quotient adds one to twice the remainder, which decides a tie and nothing else.
#[tactic(auto, unfolding(shift::specs::Round::round_size))]
fn rounded_size(n: usize, d: usize) -> usize
    requires { (n ≤ 4860000000000000000) × (0 < d) × (d ≤ 810000000000) }
    ensures { result ≡ round_size d n }
{
    let q = n / d;
    let r = n % d;
    if d < 2 * r + q % 2 { q + 1 } else { q }
}

// The sign of `r - n / d`, where `r` is `n / d` rounded: that of `r * d - n`, which is whole and at most half of `d`.
fn rounding_sign(n: i64, d: usize, r: i64) -> Sign
    requires { (Within 4860000000000000000 n) × (0 < d) × (d ≤ 810000000000) × (r ≡ nearest d n) }
    ensures { result ≡ rounding_sign d n r }
{
    Sign::from(r * d as i64 - n)
}
