// The grid's file.
use figures::Refusal;
use grid::Header;
use input::read_full;
use std::io::Read;
use std::rt::Files;
use std::{fs, str};

// One byte more than the longest file shows that a file is longer.
const ROOM: usize = grid_file::MAX_FILE + 1;

// Reads the grid from the file of this name.
pub(crate) fn read<R: Files>(
    rt: &R,
    name: &[u8],
    lat: &mut [i64],
    lon: &mut [i64],
) -> Result<Header, Refusal> {
    let mut room = [0; ROOM];
    let file = load(rt, name, &mut room);
    grid_file::read(file, lat, lon)
}

// What the file holds, as far as there is room, or none where it cannot be opened or read. A name that is no text is one of no file.
fn load<'a, R: Files>(rt: &R, name: &[u8], room: &'a mut [u8]) -> Option<&'a [u8]> {
    let name = str::from_utf8(name).ok()?;
    let mut file = fs::open(rt, name).ok()?;
    let n = read_full(&mut file, room).ok()?;
    Some(&room[..n])
}
