// How two answers stand to each other along a parallel, which is a circle: `Less` where the second is ahead, east of the first by less than
// half a turn, and `Greater` where it is behind.
ghost use Rattle.std.specs.Prelude.{◌≡◌, true, ◌≤◌};
ghost use Rattle.laws.specs.Circle.{names, distance};
ghost use Rattle.figures.specs.Points.{half_turn83};
ghost use Rattle.order.specs.Standings.{is_east, circle_standing};

use figures::{Figure, Nad83};
use std::cmp::Ordering;

// Two NAD 83 longitudes.
pub(crate) fn circle_standing(u: i64, v: i64) -> Ordering
    requires { (names half_turn83 u ≡ true) × (names half_turn83 v ≡ true) }
    ensures { result ≡ circle_standing u v }
{
    if is_east(u, v) {
        Ordering::Less
    } else if is_east(v, u) {
        Ordering::Greater
    } else {
        Ordering::Equal
    }
}

// Whether the way eastward from `u` to `v` is more than none and less than half a turn.
fn is_east(u: i64, v: i64) -> bool
    requires { (names half_turn83 u ≡ true) × (names half_turn83 v ≡ true) }
    ensures { result ≡ is_east u v }
{
    let way = distance(Nad83::HALF_TURN, u, v);
    0 < way && way < Nad83::HALF_TURN
}

// How far a place is east of another, by the names of both.
pub(crate) fn distance(half: usize, from: i64, v: i64) -> usize
    requires { (half ≤ 64800000000) × (names half from ≡ true) × (names half v ≡ true) }
    ensures { result ≡ distance half from v }
{
    if v < from {
        return (v - from + 2 * (half as i64)) as usize;
    }
    (v - from) as usize
}
