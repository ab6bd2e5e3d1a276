// Numbers in lent slices: a header's are south, west, dlat, dlon, rows and cols.
ghost use Rattle.std.specs.Prelude.{◌≡◌, ℕ, ◌<◌, ◌≤◌, length, get_or, pos};
ghost use Rattle.laws.specs.Over.{over};
ghost use Rattle.grid.specs.Lent.{lent};
ghost use Rattle.dagglehurst.specs.Header.{number, grid_in, header_in, numbers};

use grid::{Grid, Header};
use slices::put_all;

// The numbers of a header.
pub(crate) const HEADER: usize = 6;

// The grid that is lent.
pub(crate) fn grid_in<'a>(header: &[i64], lat: &'a [i64], lon: &'a [i64]) -> Grid<'a>
    ensures { lent result ≡ grid_in header.now lat.now lon.now }
{
    let header = header_in(header);
    Grid { header, lat, lon }
}

fn header_in(s: &[i64]) -> Header
    ensures { result ≡ header_in s.now }
{
    let [south, west, dlat, dlon, rows, cols] = first::<HEADER>(s);
    Header::new(south, west, dlat, dlon, rows, cols)
}

// The first numbers of a slice. A number that it does not have is 0.
pub(crate) fn first<const N: usize>(s: &[i64]) -> [i64; N]
    ensures { (k : ℕ) → k < N → get_or result k (pos 0) ≡ number s.now k }
{
    let mut numbers = [0; N];
    put_all(&mut numbers, 0, s);
    numbers
}

pub(crate) fn put_header(h: Header, s: &mut [i64])
    requires { 6 ≤ length s.old }
    ensures { s.new ≡ over (numbers h) s.old }
{
    put_all(s, 0, &[h.south.0, h.west.0, h.dlat, h.dlon, h.rows, h.cols]);
}
