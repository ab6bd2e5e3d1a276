// A grid that passes the checks.
ghost use Rattle.grid.specs.Lent.{lent};
ghost use Rattle.grid.specs.Check.{Passes};

use super::{Grid, Shape};

#[derive(Clone, Copy)]
pub struct CheckedGrid<'a> {
    pub grid: Grid<'a>,
    pub ghost passes: { Passes (lent grid) },
}

impl<'a> CheckedGrid<'a> {
    ghost use Rattle.std.specs.Prelude.{◌≡◌, ◌≤◌};
    ghost use Rattle.grid.specs.Rules.{shape, node_count};

    pub fn shape(self) -> Shape
        ensures { result ≡ shape self.entry.grid.header }
    {
        self.grid.header.shape()
    }

    pub fn node_count(self) -> usize
        ensures { (result ≡ node_count self.entry.grid.header) × (result ≤ 2048) }
    {
        let shape = self.grid.header.shape();
        shape.rows * shape.cols
    }
}
