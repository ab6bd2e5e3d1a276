// The shift at a point of a cell, as Bulletin 1875-B interpolates it: along the southern row, along the northern row, then between the
// two. The bulletin divides at each step, and its equation 2 joins these divisions into one. So it is done here: the sums stay whole, and
// what comes out is that one fraction, exact. Corners and distances go in; the grid has been checked.
ghost use Rattle.std.specs.Prelude.{◌≡◌};
ghost use Rattle.laws.specs.Parts.{Within};
ghost use Rattle.grid.specs.Nodes.{max_shift};
ghost use Rattle.shift.specs.Shift.{row_sum, numerator, exact_in};
ghost use Rattle.shift.specs.Needs.{Weighted, CornersIn, ExactIn};

use shift::{Corners, Distances, ExactShift};

// Equation 2 of both components: Sp = ((S1·B + S2·A)·D + (S3·B + S4·A)·C) / ((A + B)(C + D)).
pub(crate) fn interpolate(lat: Corners, lon: Corners, at: Distances) -> ExactShift
    requires { (CornersIn lat) × (CornersIn lon) × (Weighted at) }
    ensures { (result ≡ exact_in lat lon at) × (ExactIn result) }
{
    ExactShift {
        lat: numerator(lat, at),
        lon: numerator(lon, at),
        denominator: (at.a + at.b) * (at.c + at.d),
    }
}

// Along one row, from its west corner S1 to its east corner S2: equation 1, Sp = (S1·B + S2·A) / (A + B), before its division.
fn row_sum(s1: i64, s2: i64, at: Distances) -> i64
    requires { (Within max_shift s1) × (Within max_shift s2) × (Weighted at) }
    ensures { (result ≡ row_sum s1 s2 at) × (Within 5400000000000 result) }
{
    let a = at.a as i64;
    let b = at.b as i64;
    s1 * b + s2 * a
}

// Along both rows, then between them. The bulletin's S5 and S6 are these two sums over A + B.
fn numerator(s: Corners, at: Distances) -> i64
    requires { (CornersIn s) × (Weighted at) }
    ensures { (result ≡ numerator s at) × (Within 4860000000000000000 result) }
{
    let c = at.c as i64;
    let d = at.d as i64;
    let southern = row_sum(s.s1, s.s2, at);
    let northern = row_sum(s.s3, s.s4, at);
    southern * d + northern * c
}
