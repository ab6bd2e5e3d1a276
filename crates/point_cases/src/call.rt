// The calls of the checks and the conversions.
use super::reading::point;
use convert::{to27, to83};
use figures::{Point27, Point83, Refusal};
use grid::Grid;
use order::{Order, along_meridian, along_parallel};
use script::cursor::Cursor;

// A call, with the points that it is given.
#[derive(Clone, Copy)]
pub(crate) enum Call {
    Check,
    To83(Point27),
    To27(Point83),
    Both(Point27),
    Northward(Point27, Point27),
    Eastward(Point27, Point27),
}

impl Call {
    // Reads a call's name and its points, if there is such a call. The names differ in their third byte.
    pub(crate) fn read(line: &mut Cursor) -> Option<Call> {
        let name = line.rest.get(2).copied();
        line.word(b' ');
        match name? {
            b'e' => Some(Call::Check),
            b'8' => Some(Call::To83(point(line))),
            b'2' => Some(Call::To27(point(line))),
            b't' => Some(Call::Both(point(line))),
            b'r' => Some(Call::Northward(point(line), point(line))),
            b's' => Some(Call::Eastward(point(line), point(line))),
            _ => None,
        }
    }

    // Whether the answer is as these numbers say.
    pub(crate) fn answers(self, grid: Grid, numbers: [i64; 4]) -> Result<bool, Refusal> {
        let [lat, lon, _, _] = numbers;
        match self {
            Call::Check => grid.check().map(|_| true),
            Call::To83(p) => to83(grid, p).map(|answer| answer.numbers() == numbers),
            Call::To27(f) => to27(grid, f).map(|p| p == Point27::new(lat, lon)),
            Call::Both(p) => Ok(
                to83(grid, p)?.numbers() == numbers && to27(grid, Point83::new(lat, lon))? == p,
            ),
            Call::Northward(p, q) => along_meridian(grid, p, q).map(|order| is_kept(order, lat)),
            Call::Eastward(p, q) => along_parallel(grid, p, q).map(|order| is_kept(order, lat)),
        }
    }
}

// `kept` is 1 where the order should be kept, and 0 where the points have none.
fn is_kept(order: Order, kept: i64) -> bool {
    match order {
        Order::Kept => kept == 1,
        Order::Unrelated => kept == 0,
        Order::Changed => false,
    }
}
