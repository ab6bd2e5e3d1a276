// The cell of a point of the grid, the nodes that are its corners, and the exact shift at the point. The grid has been checked, and the
// point is on it.
ghost use Rattle.std.specs.Prelude.{◌≡◌, ◌+◌, ◌*◌, ◌-◌, ◌≤◌, ◌<◌, length};
ghost use Rattle.bilinear.specs.Axis.{cell_of};
ghost use Rattle.grid.specs.Lent.{lent};
ghost use Rattle.grid.specs.Rules.{shape};
ghost use Rattle.grid.specs.Needs.{Extent};
ghost use Rattle.shift.specs.Shift.{corners_at, cell_at, exact_of};
ghost use Rattle.shift.specs.Needs.{ExactIn};
ghost use Rattle.convert.specs.Points.{width, height};

use super::interpolation::interpolate;
use super::offsets::Spot;
use grid::{CheckedGrid, Shape};
use shift::{Cell, Corners, Distances, ExactShift};

pub(crate) fn exact_at(checked: CheckedGrid, at: Spot) -> ExactShift
    requires { (at.x ≤ width checked.grid.header) × (at.y ≤ height checked.grid.header) }
    ensures { (result ≡ exact_of (shape checked.entry.grid.header) (lent checked.entry.grid).nodes at.x at.y) × (ExactIn result) }
{
    let shape = shape_of(checked);
    let cell = cell_at(shape, at);
    let sw = cell.row * shape.cols + cell.col;
    let nw = sw + shape.cols;
    interpolate(
        corners_at(checked.grid.lat, sw, nw),
        corners_at(checked.grid.lon, sw, nw),
        cell.distances,
    )
}

// The sizes of the header: it breaks no rule, so none is below 0.
pub(crate) fn shape_of(checked: CheckedGrid) -> Shape
    ensures value { result ≡ shape checked.entry.grid.header }
    ensures sizes { Extent result }
{
    let h = checked.grid.header;
    Shape {
        rows: h.rows as usize,
        cols: h.cols as usize,
        dlat: h.dlat as usize,
        dlon: h.dlon as usize,
    }
}

#[tactic(auto, unfolding(shift::specs::Shift::cell_at))]
fn cell_at(shape: Shape, at: Spot) -> Cell
    requires { (Extent shape) × (at.x ≤ (shape.cols - 1) * shape.dlon) × (at.y ≤ (shape.rows - 1) * shape.dlat) }
    ensures { result ≡ cell_at shape at.x at.y }
{
    let col = cell_of(shape.dlon, shape.cols - 2, at.x);
    let row = cell_of(shape.dlat, shape.rows - 2, at.y);
    let a = at.x - shape.dlon * col;
    let c = at.y - shape.dlat * row;
    let b = shape.dlon - a;
    let d = shape.dlat - c;
    Cell {
        row,
        col,
        distances: Distances { a, b, c, d },
    }
}

// The cell of `x` along one axis. The last cell has its far edge too.
#[tactic(auto, unfolding(bilinear::specs::Axis::cell_of))]
fn cell_of(spacing: usize, last: usize, x: usize) -> usize
    requires { 0 < spacing }
    ensures { result ≡ cell_of spacing last x }
{
    (x / spacing).min(last)
}

// The corners of a cell whose west corners are the nodes `sw` and `nw`.
fn corners_at(s: &[i64], sw: usize, nw: usize) -> Corners
    requires { (sw + 1 < length s.now) × (nw + 1 < length s.now) }
    ensures { result ≡ corners_at s.now sw nw }
{
    Corners {
        s1: s[sw],
        s2: s[sw + 1],
        s3: s[nw],
        s4: s[nw + 1],
    }
}
