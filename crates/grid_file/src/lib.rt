// A grid's file: what a program read of it, or refusal 9.
#![tactic(auto)]

ghost use Rattle.std.specs.Prelude.{◌≡◌, option_map};
ghost use Rattle.figures.specs.Outcome.{outcome, map_answer};
ghost use Rattle.grid.specs.Grid.{node_lists};
ghost use Rattle.grid_reader.specs.Reading.{header_of, nodes_after};
ghost use Rattle.grid_file.specs.File.{reading_file, reading_front};

use figures::Refusal;
use grid::Header;

// The longest file that is read. A program reads one byte more, where there is one: it shows that a file is longer.
pub const MAX_FILE: usize = 48_000;

// Reads the grid of a file from the bytes that a program read of it, or none where it could not be opened or a read of it failed. A
// refusal leaves both slices as they were.
#[tactic(auto, using(crate::proofs::Laws::all_in_front), unfolding(crate::specs::File::reading_file, grid_reader::specs::Reading::nodes_after))]
pub fn read(file: Option<&[u8]>, lat: &mut [i64], lon: &mut [i64]) -> Result<Header, Refusal>
    ensures answer { outcome result ≡ map_answer header_of (reading_file (option_map (λ text. text.now) file.entry) (node_lists lat.old lon.old)) }
    ensures nodes { node_lists lat.new lon.new ≡ nodes_after (reading_file (option_map (λ text. text.now) file.entry) (node_lists lat.old lon.old)) (node_lists lat.old lon.old) }
{
    let text = file.ok_or(Refusal::File(0))?;
    read_front(text.len(), text, lat, lon)
}

// The same of a file whose length a program knows, and that has its first bytes at the front of `room`.
pub fn read_front(
    length: usize,
    room: &[u8],
    lat: &mut [i64],
    lon: &mut [i64],
) -> Result<Header, Refusal>
    ensures answer { outcome result ≡ map_answer header_of (reading_front length room.now (node_lists lat.old lon.old)) }
    ensures nodes { node_lists lat.new lon.new ≡ nodes_after (reading_front length room.now (node_lists lat.old lon.old)) (node_lists lat.old lon.old) }
{
    if MAX_FILE < length {
        return Err(Refusal::File(MAX_FILE));
    }
    grid_reader::read(&room[..length.min(room.len())], lat, lon)
}
