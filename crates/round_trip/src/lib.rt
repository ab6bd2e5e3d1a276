// Demand 3 on the real conversions: what goes there comes back, what comes back goes there, and no two points share an answer.
// Each contract says what comes out without saying how; it holds only since the conversions undo each other.
#![tactic(auto)]

ghost use Rattle.std.specs.Prelude.{◌≡◌};
ghost use Rattle.figures.specs.Outcome.{outcome};
ghost use Rattle.grid.specs.Lent.{lent};
ghost use Rattle.round_trip.specs.RoundTrip.{comes_back, goes_again, one_answer};

use convert::{Shifted, to27, to83};
use figures::{Point27, Point83, Refusal};
use grid::Grid;

// A point converted and its answer taken back: the point itself, or the conversion's refusal.
pub fn there_and_back(grid: Grid, p: Point27) -> Result<Point27, Refusal>
    ensures { outcome result ≡ comes_back (lent grid.entry) p }
{
    to27(grid, to83(grid, p)?.point)
}

// A figure taken back and its point converted: the figure itself with the signs of that point, or the refusal of the way back.
pub fn back_and_there(grid: Grid, f: Point83) -> Result<Shifted, Refusal>
    ensures { outcome result ≡ goes_again (lent grid.entry) f }
{
    to83(grid, to27(grid, f)?)
}

// Whether two points have the same coordinates for an answer: exactly if they are one point and it has an answer.
pub fn share_answer(grid: Grid, p: Point27, q: Point27) -> bool
    ensures { result ≡ one_answer (lent grid.entry) p q }
{
    let Ok(a) = to83(grid, p) else {
        return false;
    };
    match to83(grid, q) {
        Ok(b) => a.point == b.point,
        Err(_) => false,
    }
}
