// Request 10 of document 02 on the real conversions: two points are converted, and it is told whether their answers stand to each other as
// the points do. Each contract says that they do, without saying how; it holds only since answers on a grid that passes keep their order.
#![tactic(auto)]

mod standing;

ghost use Rattle.std.specs.Prelude.{◌≡◌};
ghost use Rattle.figures.specs.Outcome.{outcome};
ghost use Rattle.grid.specs.Lent.{lent};
ghost use Rattle.order.specs.Comparing.{on_meridian, on_parallel, compared, both_converted, order_of, meridian_order, parallel_order};
ghost use Rattle.order.specs.Needs.{LongitudesNamed};

use convert::{Shifted, to83};
use figures::{Figure, Nad27, Point27, Point83, Refusal};
use grid::Grid;
use standing::{circle_standing, distance};
use std::cmp::Ordering;

// Whether two answers stand to each other as their points do.
#[derive(Clone, Copy, PartialEq, Eq)]
pub enum Order {
    Kept,
    Changed,
    // The points have none: they are not on one meridian, or not on one parallel.
    Unrelated,
}

// Of two points on one meridian: whether the northern one has the northern answer.
pub fn along_meridian(grid: Grid, p: Point27, q: Point27) -> Result<Order, Refusal>
    ensures { outcome result ≡ compared (lent grid.entry) p q (on_meridian p q) }
{
    let (a, b) = convert_both(grid, p, q)?;
    Ok(meridian_order(p, q, a.point, b.point))
}

// Of two points on one parallel: whether the one farther east of the west edge has the answer farther east, by less than half a turn.
pub fn along_parallel(grid: Grid, p: Point27, q: Point27) -> Result<Order, Refusal>
    ensures { outcome result ≡ compared (lent grid.entry) p q (on_parallel p q) }
{
    let (a, b) = convert_both(grid, p, q)?;
    Ok(parallel_order(grid.header.west, p, q, a.point, b.point))
}

fn convert_both(grid: Grid, p: Point27, q: Point27) -> Result<(Shifted, Shifted), Refusal>
    ensures { outcome result ≡ both_converted (lent grid.entry) p q }
{
    Ok((to83(grid, p)?, to83(grid, q)?))
}

// How the points `p` and `q`, by their latitudes, and their answers `a` and `b` stand.
fn meridian_order(p: Point27, q: Point27, a: Point83, b: Point83) -> Order
    ensures { result ≡ meridian_order p q a b }
{
    let points = p.lat.0.cmp(&q.lat.0);
    let answers = a.lat.0.cmp(&b.lat.0);
    order_of(p.lon == q.lon, points, answers)
}

// The same by longitudes: of the points by their distances from the west edge.
fn parallel_order(west: Nad27, p: Point27, q: Point27, a: Point83, b: Point83) -> Order
    requires { LongitudesNamed west p q a b }
    ensures { result ≡ parallel_order west p q a b }
{
    let p_east = distance(Nad27::HALF_TURN, west.0, p.lon.0);
    let q_east = distance(Nad27::HALF_TURN, west.0, q.lon.0);
    let answers = circle_standing(a.lon.0, b.lon.0);
    order_of(p.lat == q.lat, p_east.cmp(&q_east), answers)
}

#[tactic(auto, unfolding(crate::specs::Comparing::order_of))]
fn order_of(related: bool, points: Ordering, answers: Ordering) -> Order
    ensures { result ≡ order_of related points answers }
{
    if !related {
        Order::Unrelated
    } else if points == answers {
        Order::Kept
    } else {
        Order::Changed
    }
}
