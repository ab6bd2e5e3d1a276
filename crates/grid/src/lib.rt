// One region's shift grid, which document 01 calls the sheet: its header, and the checks that a grid passes.
// A grid is a header and two lent slices, the latitude and the longitude shifts of its nodes in hundred-thousandths of an arc
// second. Nodes run from the southernmost row north, each row from west to east.
#![tactic(auto)]

mod checked;
mod component;
mod layout;
mod nodes;
mod rules;

ghost use Rattle.std.specs.Prelude.{◌≡◌, IfOk};
ghost use Rattle.figures.specs.Outcome.{outcome, map_answer};
ghost use Rattle.grid.specs.Grid.{header};
ghost use Rattle.grid.specs.Lent.{lent};
ghost use Rattle.grid.specs.Check.{verdict};
ghost use Rattle.grid.specs.Nodes.{beyond_range};

pub use checked::CheckedGrid;
use figures::{Nad27, Refusal};

// South and west edge, spacing of rows and columns in thousandths of an arc second, number of rows and columns.
#[derive(Clone, Copy)]
pub struct Header {
    pub south: Nad27,
    pub west: Nad27,
    pub dlat: i64,
    pub dlon: i64,
    pub rows: i64,
    pub cols: i64,
}

impl Header {
    pub fn new(south: i64, west: i64, dlat: i64, dlon: i64, rows: i64, cols: i64) -> Header
        ensures { result ≡ header south west dlat dlon rows cols }
    {
        Header {
            south: Nad27(south),
            west: Nad27(west),
            dlat,
            dlon,
            rows,
            cols,
        }
    }
}

// The header's sizes as natural numbers: what is left of it in local coordinates.
#[derive(Clone, Copy)]
pub struct Shape {
    pub rows: usize,
    pub cols: usize,
    pub dlat: usize,
    pub dlon: usize,
}

// A grid as a function is lent it.
#[derive(Clone, Copy)]
pub struct Grid<'a> {
    pub header: Header,
    pub lat: &'a [i64],
    pub lon: &'a [i64],
}

impl<'a> Grid<'a> {
    // The checks, in the order 2, 5, 3, 4, 14: the first that the grid fails.
    pub fn check(self) -> Result<CheckedGrid<'a>, Refusal>
        ensures verdict { map_answer (λ checked. tt) (outcome result) ≡ verdict (lent self.entry) }
        ensures same { IfOk result (λ checked. lent checked.grid ≡ lent self.entry) }
    {
        let shape = self.check_layout()?;
        let n = shape.rows * shape.cols;
        nodes::check(shape, &self.lat[..n], &self.lon[..n])?;
        Ok(CheckedGrid { grid: self })
    }
}

// The largest size of a shift, 60 arc seconds.
pub const MAX_SHIFT: i64 = 6_000_000;

// Whether a shift is beyond its range.
#[tactic(auto, unfolding(crate::specs::Nodes::beyond_range, crate::specs::Rules::between))]
pub fn beyond_range(shift: i64) -> bool
    ensures { result ≡ beyond_range shift }
{
    !(-MAX_SHIFT..=MAX_SHIFT).contains(&shift)
}
