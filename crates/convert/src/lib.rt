// Points from NAD 27 to NAD 83 and back, over a grid.
#![tactic(auto)]

pub mod batch;
mod cells;
mod circle;
mod interpolation;
mod offsets;
mod rounding;
mod search;

ghost use Rattle.std.specs.Prelude.{◌≡◌};
ghost use Rattle.laws.specs.Parts.{Within};
ghost use Rattle.figures.specs.Outcome.{outcome};
ghost use Rattle.grid.specs.Lent.{lent};
ghost use Rattle.shift.specs.Shift.{rounded_shift};
ghost use Rattle.shift.specs.Needs.{ExactIn};
ghost use Rattle.convert.specs.Points.{answer_of, shifted_by};
ghost use Rattle.convert.specs.Convert.{numbers83, to83, to27};
ghost use Rattle.grid.specs.Nodes.{max_shift};

use figures::{Point27, Point83, Refusal};
use grid::{CheckedGrid, Grid};
use search::Found;
use shift::{ExactShift, Shift, Signs};

// A point's answer: where it is in NAD 83, and for each coordinate the sign of the rounded shift minus the exact one.
#[derive(Clone, Copy, PartialEq, Eq)]
pub struct Shifted {
    pub point: Point83,
    pub signs: Signs,
}

// A NAD 27 point's NAD 83 answer: 2, 5, 3, 4, 14, then 6.
pub fn to83(grid: Grid, p: Point27) -> Result<Shifted, Refusal>
    ensures { outcome result ≡ to83 (lent grid.entry) p }
{
    forward(grid.check()?, p)
}

// The NAD 27 point on the grid whose answer is the figure: 2, 5, 3, 4, 14, then 7.
pub fn to27(grid: Grid, f: Point83) -> Result<Point27, Refusal>
    ensures { outcome result ≡ to27 (lent grid.entry) f }
{
    inverse(grid.check()?, f)
}

impl Shifted {
    // Latitude, longitude and the number of the sign of each: an answer as it is stored and written.
    pub fn numbers(self) -> [i64; 4]
        ensures numbers { result ≡ numbers83 self }
        ensures sizes { (Within 9223372036854775808 self.point.lat.0) × (Within 9223372036854775808 self.point.lon.0) }
    {
        let Shifted { point, signs } = self;
        [point.lat.0, point.lon.0, signs.lat.into(), signs.lon.into()]
    }
}

// `to83` over a grid that was checked. Merged into the loop of a batch, which is the faster for it.
#[inline(always)]
fn forward(checked: CheckedGrid, p: Point27) -> Result<Shifted, Refusal>
    ensures { outcome result ≡ to83 (lent checked.entry.grid) p }
{
    let at = offsets::position_of(checked, p).ok_or(Refusal::OffGrid)?;
    Ok(shift_point(p, cells::exact_at(checked, at)))
}

// A point's answer, from the exact shift there.
fn shift_point(p: Point27, e: ExactShift) -> Shifted
    requires ranges { (Within 1000000000 p.lat.0) × (Within 648000000 p.lon.0) × (ExactIn e) }
    requires shifts { (Within max_shift (rounded_shift e).lat) × (Within max_shift (rounded_shift e).lon) }
    ensures { result ≡ shifted_by p e }
{
    let shift = rounding::rounded_shift(e);
    let signs = rounding::signs(e, shift);
    Shifted {
        point: answer_of(p, shift),
        signs,
    }
}

// 100 times the point plus the shift, for each coordinate, the longitude as a place on its circle.
fn answer_of(p: Point27, s: Shift) -> Point83
    requires { (Within 1000000000 p.lat.0) × (Within 648000000 p.lon.0) × (Within max_shift s.lat) × (Within max_shift s.lon) }
    ensures { result ≡ answer_of p s }
{
    Point83::new(
        offsets::hundredfold(p.lat.0, s.lat),
        offsets::place83(p.lon.0, s.lon),
    )
}

// `to27` over a grid that was checked: the candidate is the point if its answer is the figure; otherwise no point is.
// Merged into the loop of a batch as well.
#[inline(always)]
fn inverse(checked: CheckedGrid, f: Point83) -> Result<Point27, Refusal>
    ensures { outcome result ≡ to27 (lent checked.entry.grid) f }
{
    let to = offsets::target_of(checked, f).ok_or(Refusal::NoPoint)?;
    let Found { point, shift } = search::candidate(checked, to);
    let answer = answer_of(point, shift);
    if f == answer {
        Ok(point)
    } else {
        Err(Refusal::NoPoint)
    }
}
