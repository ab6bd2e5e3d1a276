// A whole text, scanned into two lists of nodes.
ghost use Rattle.std.specs.Prelude.{◌≡◌};
ghost use Rattle.figures.specs.Outcome.{answered, outcome};
ghost use Rattle.grid.specs.Grid.{node_lists};
ghost use Rattle.grid_reader.specs.Scan.{start, step, taken, fed};

use super::scanner::Scan;
use figures::Refusal;
use slices::put;

// Scans a text. The nodes go to the front of `lat` and `lon`.
pub(crate) fn scan(
    text: &[u8],
    room: usize,
    lat: &mut [i64],
    lon: &mut [i64],
) -> Result<Scan, Refusal>
    ensures out { outcome result ≡ (fed room (answered start) (node_lists lat.old lon.old) text.now).out }
    ensures nodes { node_lists lat.new lon.new ≡ (fed room (answered start) (node_lists lat.old lon.old) text.now).nodes }
{
    let mut scan = Scan::new();
    for byte in text {
        scan = take(scan, *byte, room, lat, lon)?;
    }
    Ok(scan)
}

// One byte. A node whose line ends with it goes to its place.
#[tactic(auto, unfolding(crate::specs::Scan::taken))]
fn take(
    scan: Scan,
    byte: u8,
    room: usize,
    lat: &mut [i64],
    lon: &mut [i64],
) -> Result<Scan, Refusal>
    ensures out { outcome result ≡ (taken scan (node_lists lat.old lon.old) (step room scan byte)).out }
    ensures nodes { node_lists lat.new lon.new ≡ (taken scan (node_lists lat.old lon.old) (step room scan byte)).nodes }
{
    let step = scan.advance(byte, room)?;
    if let Some((a, b)) = step.node {
        put(lat, scan.node as usize, a);
        put(lon, scan.node as usize, b);
    }
    Ok(step.scan)
}
