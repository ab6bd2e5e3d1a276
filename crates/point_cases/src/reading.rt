// What the lines of a script say in numbers.
use arrayvec::ArrayVec;
use figures::{Figure, Point};
use grid::Header;
use script::cursor::Cursor;
use script::numbers::{Numbers, SHIFTS};

// The shifts of a grid's nodes, of one component.
pub(crate) type Shifts = ArrayVec<i64, SHIFTS>;

pub(crate) fn header_of([south, west, dlat, dlon, rows, cols]: [i64; 6]) -> Header {
    Header::new(south, west, dlat, dlon, rows, cols)
}

// As many shifts as there is room for.
pub(crate) fn read_shifts(text: &[u8], shifts: &mut Shifts) {
    shifts.clear();
    let _ = shifts.extend(Numbers::new(text));
}

// The first numbers of a text, and 0 where it has no more.
pub(crate) fn numbers<const N: usize>(text: &[u8]) -> [i64; N] {
    let mut numbers = [0; N];
    for (place, number) in numbers.iter_mut().zip(Numbers::new(text)) {
        *place = number;
    }
    numbers
}

pub(crate) fn point<F: Figure>(text: &mut Cursor) -> Point<F> {
    let lat = text.signed();
    Point::new(lat, text.signed())
}
