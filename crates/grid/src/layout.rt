// The checks that look at no node: 2, then 5.
ghost use Rattle.std.specs.Prelude.{◌≡◌};
ghost use Rattle.figures.specs.Outcome.{outcome, map_answer};
ghost use Rattle.grid.specs.Lent.{lent};
ghost use Rattle.grid.specs.Rules.{shape};
ghost use Rattle.grid.specs.Check.{layout};

use super::{Grid, Shape};
use figures::Refusal;

impl<'a> Grid<'a> {
    // Where they pass, the header's sizes.
    pub fn check_layout(self) -> Result<Shape, Refusal>
        ensures { outcome result ≡ map_answer (λ passed. shape self.entry.header) (layout (lent self.entry)) }
    {
        let shape = self.header.check()?;
        let n = shape.rows * shape.cols;
        if self.lat.len() < n || self.lon.len() < n {
            return Err(Refusal::NodeRoom(n));
        }
        Ok(shape)
    }
}
