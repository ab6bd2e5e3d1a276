// The checks of the nodes, each over all of them before the next: range, then steepness, then twist.
ghost use Rattle.std.specs.Prelude.{◌≡◌, ◌*◌, length};
ghost use Rattle.figures.specs.Outcome.{outcome};
ghost use Rattle.grid.specs.Grid.{node_lists};
ghost use Rattle.grid.specs.Nodes.{out_of_range, steep_at, twisted_at};
ghost use Rattle.grid.specs.Check.{lowest, nodes_verdict};
ghost use Rattle.grid.specs.Needs.{Extent};

use super::component::{Component, steep_at};
use super::{Shape, beyond_range};
use figures::Refusal;

#[tactic(auto, unfolding(crate::specs::Check::nodes_verdict, crate::specs::Check::smoothness))]
pub(crate) fn check<'a>(shape: Shape, lat: &'a [i64], lon: &'a [i64]) -> Result<(), Refusal>
    requires { (Extent shape) × (length lat.now ≡ shape.rows * shape.cols) × (length lon.now ≡ shape.rows * shape.cols) }
    ensures { outcome result ≡ nodes_verdict shape (node_lists lat.now lon.now) }
{
    if let Some(node) = lowest_out_of_range(lat, lon) {
        return Err(Refusal::Range(node));
    }
    let lat = Component { shape, shifts: lat };
    let lon = Component { shape, shifts: lon };
    if let Some(node) = lowest_steep(lat, lon) {
        return Err(Refusal::Steep(node));
    }
    if let Some(node) = lowest_twisted(lat, lon) {
        return Err(Refusal::Twist(node));
    }
    Ok(())
}

fn lowest_out_of_range(lat: &[i64], lon: &[i64]) -> Option<usize>
    requires { length lat.now ≡ length lon.now }
    ensures { result ≡ lowest (length lat.now) (out_of_range (node_lists lat.now lon.now)) }
{
    (0..lat.len()).find(|k| beyond_range(lat[*k]) || beyond_range(lon[*k]))
}

fn lowest_steep(lat: Component, lon: Component) -> Option<usize>
    requires { lat.shape ≡ lon.shape }
    ensures { result ≡ lowest (length lat.entry.shifts.now) (steep_at lat.entry.shape (node_lists lat.entry.shifts.now lon.entry.shifts.now)) }
{
    (0..lat.shifts.len()).find(|k| steep_at(lat, lon, *k))
}

fn lowest_twisted(lat: Component, lon: Component) -> Option<usize>
    requires { lat.shape ≡ lon.shape }
    ensures { result ≡ lowest (length lat.entry.shifts.now) (twisted_at lat.entry.shape (node_lists lat.entry.shifts.now lon.entry.shifts.now)) }
{
    (0..lat.shifts.len()).find(|k| lat.twisted(*k) || lon.twisted(*k))
}
