// A grid written as text.
#![tactic(auto)]

mod parts;

ghost use Rattle.std.specs.Prelude.{◌≡◌};
ghost use Rattle.figures.specs.Outcome.{outcome};
ghost use Rattle.writing.specs.Writing.{room_after};
ghost use Rattle.grid.specs.Lent.{lent};
ghost use Rattle.grid_text.specs.Text.{grid_text};
ghost use Rattle.grid_text.specs.Writing.{writing};

use figures::Refusal;
use grid::Grid;

// No text of a grid has more bytes.
const MOST: usize = 48_000;

// Writes a grid that passes the checks over the front of the room. Nothing is written before the whole text is known to fit.
pub fn write(grid: Grid, room: &mut [u8]) -> Result<usize, Refusal>
    ensures answer { outcome result ≡ writing (lent grid.entry) room.old }
    ensures text { room.new ≡ room_after (outcome result) (grid_text (lent grid.entry)) room.old }
{
    let checked = grid.check()?;
    writing::write(MOST, room, |room| parts::put_grid(checked, room))
}
