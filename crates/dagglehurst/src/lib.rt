// The library for other languages: numbers and slices only, and one number as the answer (reply.rt). include/dagglehurst.h says what each
// function does. A grid is a header, as a slice of six numbers, and its two node slices.
#![tactic(auto)]

mod memory;
mod numbers;
mod pieces;
mod points;
mod reply;

ghost use Rattle.std.specs.Prelude.{◌≡◌};
ghost use Rattle.figures.specs.Outcome.{outcome, map_answer};
ghost use Rattle.writing.specs.Writing.{room_after};
ghost use Rattle.grid.specs.Grid.{node_lists};
ghost use Rattle.grid.specs.Lent.{lent};
ghost use Rattle.grid.specs.Rules.{node_count_or0};
ghost use Rattle.grid.specs.Check.{verdict};
ghost use Rattle.grid_text.specs.Text.{grid_text};
ghost use Rattle.grid_text.specs.Writing.{writing};
ghost use Rattle.grid_reader.specs.Reading.{nodes_after};
ghost use Rattle.convert.specs.Batch.{request_outcome, converting, answers_after, refusals_after};
ghost use Rattle.listing.specs.Listing.{listing, list_text};
ghost use Rattle.dagglehurst.specs.Reply.{reply};
ghost use Rattle.dagglehurst.specs.Header.{header_in, grid_in, reading_all, node_count_in, header_after};

use convert::batch::convert_batch;
use figures::Refusal;
use grid::Grid;
use numbers::{HEADER, grid_in, put_header};

// Reads a grid's text.
#[unsafe(no_mangle)]
pub extern "C" fn dagglehurst_read(
    text: &[u8],
    header: &mut [i64],
    lat: &mut [i64],
    lon: &mut [i64],
) -> u64
    ensures answer { result ≡ reply (map_answer node_count_in (reading_all text.now header.old lat.old lon.old)) }
    ensures header { header.new ≡ header_after (reading_all text.now header.old lat.old lon.old) header.old }
    ensures nodes { node_lists lat.new lon.new ≡ nodes_after (reading_all text.now header.old lat.old lon.old) (node_lists lat.old lon.old) }
{
    reply::of(read(text, header, lat, lon))
}

#[tactic(auto, unfolding(crate::specs::Header::reading_all, crate::specs::Header::header_after, grid_reader::specs::Reading::nodes_after))]
fn read(text: &[u8], header: &mut [i64], lat: &mut [i64], lon: &mut [i64]) -> Result<usize, Refusal>
    ensures answer { outcome result ≡ map_answer node_count_in (reading_all text.now header.old lat.old lon.old) }
    ensures header { header.new ≡ header_after (reading_all text.now header.old lat.old lon.old) header.old }
    ensures nodes { node_lists lat.new lon.new ≡ nodes_after (reading_all text.now header.old lat.old lon.old) (node_lists lat.old lon.old) }
{
    if header.len() < HEADER {
        return Err(Refusal::Room(HEADER));
    }
    let h = grid_reader::read(text, lat, lon)?;
    put_header(h, header);
    Ok(h.node_count())
}

// Writes a grid's text.
#[unsafe(no_mangle)]
pub extern "C" fn dagglehurst_write<'a>(
    header: &'a [i64],
    lat: &'a [i64],
    lon: &'a [i64],
    room: &mut [u8],
) -> u64
    ensures answer { result ≡ reply (writing (grid_in header.now lat.now lon.now) room.old) }
    ensures room { room.new ≡ room_after (writing (grid_in header.now lat.now lon.now) room.old) (grid_text (grid_in header.now lat.now lon.now)) room.old }
{
    reply::of(grid_text::write(grid_in(header, lat, lon), room))
}

// Checks a grid.
#[unsafe(no_mangle)]
pub extern "C" fn dagglehurst_check<'a>(header: &'a [i64], lat: &'a [i64], lon: &'a [i64]) -> u64
    ensures { result ≡ reply (map_answer (λ passed. node_count_or0 (header_in header.now)) (verdict (grid_in header.now lat.now lon.now))) }
{
    reply::of(count_nodes(grid_in(header, lat, lon)))
}

// How many nodes a grid has that passes the checks.
fn count_nodes(grid: Grid) -> Result<usize, Refusal>
    ensures { outcome result ≡ map_answer (λ passed. node_count_or0 grid.entry.header) (verdict (lent grid.entry)) }
{
    Ok(grid.check()?.node_count())
}

// Converts a request for each way, with one check of the grid.
#[unsafe(no_mangle)]
pub extern "C" fn dagglehurst_convert<'a>(
    header: &'a [i64],
    lat: &'a [i64],
    lon: &'a [i64],
    ways: &'a [u8],
    points: &'a [i64],
    answers: &mut [i64],
    refusals: &mut [u8],
) -> u64
    ensures answer { result ≡ reply (converting (grid_in header.now lat.now lon.now) ways.now points.now answers.old refusals.old) }
    ensures answers { answers.new ≡ answers_after (converting (grid_in header.now lat.now lon.now) ways.now points.now answers.old refusals.old) (request_outcome (grid_in header.now lat.now lon.now) ways.now points.now) answers.old }
    ensures refusals { refusals.new ≡ refusals_after (converting (grid_in header.now lat.now lon.now) ways.now points.now answers.old refusals.old) (request_outcome (grid_in header.now lat.now lon.now) ways.now points.now) refusals.old }
{
    let grid = grid_in(header, lat, lon);
    reply::of(convert_batch(grid, ways, points, answers, refusals))
}

// Runs the list over request lines.
#[unsafe(no_mangle)]
pub extern "C" fn dagglehurst_list<'a>(
    header: &'a [i64],
    lat: &'a [i64],
    lon: &'a [i64],
    requests: &[u8],
    room: &mut [u8],
) -> u64
    ensures answer { result ≡ reply (listing (grid_in header.now lat.now lon.now) requests.now room.old) }
    ensures room { room.new ≡ room_after (listing (grid_in header.now lat.now lon.now) requests.now room.old) (list_text (grid_in header.now lat.now lon.now) requests.now) room.old }
{
    reply::of(listing::list(grid_in(header, lat, lon), requests, room))
}
