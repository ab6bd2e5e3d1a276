// A grid read from its text.
#![tactic(auto)]

mod form;
mod nodes;
mod scanner;

ghost use Rattle.std.specs.Prelude.{◌≡◌};
ghost use Rattle.figures.specs.Outcome.{answered, outcome, map_answer};
ghost use Rattle.grid.specs.Grid.{node_lists};
ghost use Rattle.grid_reader.specs.Reading.{header_of, reading, nodes_after};
ghost use Rattle.grid_reader.specs.Scan.{ended};
ghost use Rattle.grid_reader.specs.Needs.{Stored};

use figures::Refusal;
use form::WHOLE;
use grid::{Grid, Header};
use scanner::Scan;

// Reads a grid's text. Its nodes go to the front of the two lent slices; a refused read leaves both as they were.
pub fn read(text: &[u8], lat: &mut [i64], lon: &mut [i64]) -> Result<Header, Refusal>
    ensures answer { outcome result ≡ map_answer header_of (reading text.now (node_lists lat.old lon.old)) }
    ensures nodes { node_lists lat.new lon.new ≡ nodes_after (reading text.now (node_lists lat.old lon.old)) (node_lists lat.old lon.old) }
{
    let room = lat.len().min(lon.len());
    let mut lats = [0; 2048];
    let mut lons = [0; 2048];
    let end = nodes::scan(text, room, &mut lats, &mut lons)?;
    finish(end, &lats, &lons, lat, lon)
}

// The text has ended. Nothing is stored before the whole of it has passed.
#[tactic(auto, unfolding(crate::specs::Reading::nodes_after))]
fn finish(
    end: Scan,
    lats: &[i64],
    lons: &[i64],
    lat: &mut [i64],
    lon: &mut [i64],
) -> Result<Header, Refusal>
    requires { Stored end (node_lists lats.now lons.now) (node_lists lat.old lon.old) }
    ensures answer { outcome result ≡ map_answer header_of (ended (answered end) (node_lists lats.now lons.now)) }
    ensures nodes { node_lists lat.new lon.new ≡ nodes_after (ended (answered end) (node_lists lats.now lons.now)) (node_lists lat.old lon.old) }
{
    if end.at != WHOLE {
        return Err(end.departure());
    }
    let n = end.count as usize;
    let grid = Grid {
        header: end.header,
        lat: &lats[..n],
        lon: &lons[..n],
    };
    grid.check()?;
    lat[..n].copy_from_slice(grid.lat);
    lon[..n].copy_from_slice(grid.lon);
    Ok(end.header)
}
