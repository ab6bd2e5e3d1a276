// There and back in text, on the real reader and writer.
#![tactic(auto)]

ghost use Rattle.std.specs.Prelude.{◌≡◌};
ghost use Rattle.figures.specs.Outcome.{outcome};
ghost use Rattle.writing.specs.Writing.{room_after};
ghost use Rattle.grid.specs.Grid.{node_lists};
ghost use Rattle.grid.specs.Lent.{lent};
ghost use Rattle.text_round_trip.specs.Again.{text_again, grid_again, nodes_again};

use figures::Refusal;
use grid::{Grid, Header};

// Reads a text and writes its grid again: the same text.
pub fn read_and_write(text: &[u8], room: &mut [u8]) -> Result<usize, Refusal>
    ensures answer { outcome result ≡ text_again text.now room.old }
    ensures room { room.new ≡ room_after (outcome result) text.now room.old }
{
    let mut lat = [0i64; 2048];
    let mut lon = [0i64; 2048];
    let header = grid_reader::read(text, &mut lat, &mut lon)?;
    let grid = Grid {
        header,
        lat: &lat,
        lon: &lon,
    };
    grid_text::write(grid, room)
}

// Writes a grid and reads its text again: the same grid.
pub fn write_and_read(grid: Grid, lat: &mut [i64], lon: &mut [i64]) -> Result<Header, Refusal>
    ensures answer { outcome result ≡ grid_again (lent grid.entry) (node_lists lat.old lon.old) }
    ensures nodes { node_lists lat.new lon.new ≡ nodes_again (outcome result) (lent grid.entry).nodes (node_lists lat.old lon.old) }
{
    let mut text = [0u8; 48_000];
    let n = grid_text::write(grid, &mut text)?;
    grid_reader::read(&text[..n], lat, lon)
}
