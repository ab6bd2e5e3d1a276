// A point of either datum.
ghost use Rattle.std.specs.Prelude.{◌≡◌};
ghost use Rattle.figures.specs.Points.{point};

use super::{Figure, Nad27, Nad83};

// Latitude is positive north and longitude positive east, in both datums.
#[derive(Clone, Copy, PartialEq, Eq)]
pub struct Point<F> {
    pub lat: F,
    pub lon: F,
}

pub type Point27 = Point<Nad27>;

pub type Point83 = Point<Nad83>;

impl<F: Figure> Point<F> {
    pub fn new(lat: i64, lon: i64) -> Point<F>
        ensures { result ≡ point F.figure lat lon }
    {
        Point {
            lat: F::new(lat),
            lon: F::new(lon),
        }
    }
}
