// A text, read into two lent slices and compared with what it should come to.
use super::lent;
use grid::Header;
use script::numbers::{Numbers, SHIFTS};
use script::outcome::Outcome;

// Reads a text into slices of these lengths. `numbers` are those of an accepted sheet: the header's six, then each node's two.
pub(crate) fn read(text: &[u8], numbers: &[u8], lat: usize, lon: usize) -> Outcome {
    let mut lats = [0; SHIFTS];
    let mut lons = [0; SHIFTS];
    match (lats.get_mut(..lat), lons.get_mut(..lon)) {
        (Some(lat), Some(lon)) => read_into(text, numbers, lat, lon),
        _ => Outcome::answered(false),
    }
}

fn read_into(text: &[u8], numbers: &[u8], lat: &mut [i64], lon: &mut [i64]) -> Outcome {
    lent::fill(lat, lent::LAT);
    lent::fill(lon, lent::LON);
    let mut numbers = Numbers::new(numbers);
    match grid_reader::read(text, lat, lon) {
        Ok(header) => Outcome::answered(
            has_numbers(header, &mut numbers) && have_elements(lat, lon, numbers),
        ),
        Err(why) => Outcome::refused(why, have_elements(lat, lon, Numbers::new(b""))),
    }
}

// Numbers that are missing count as 0, which is no spacing.
fn has_numbers(h: Header, numbers: &mut Numbers) -> bool {
    [h.south.0, h.west.0, h.dlat, h.dlon, h.rows, h.cols]
        .iter()
        .all(|number| *number == numbers.next().unwrap_or(0))
}

// The elements of both slices, latitude first. Behind the numbers they should be as they were, and no number may be left over.
fn have_elements(lat: &[i64], lon: &[i64], mut numbers: Numbers) -> bool {
    for k in 0..lat.len().max(lon.len()) {
        for (list, base) in [(lat, lent::LAT), (lon, lent::LON)] {
            let before = lent::before(base, k);
            // An element behind the end cannot have changed.
            let element = list.get(k).copied().unwrap_or(before);
            if element != numbers.next().unwrap_or(before) {
                return false;
            }
        }
    }
    numbers.next().is_none()
}
