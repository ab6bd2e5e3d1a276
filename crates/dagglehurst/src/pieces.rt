// The list as its request lines come, in pieces of any size. Between the calls the list stands in the caller's memory (memory.rt).
ghost use Rattle.std.specs.Prelude.{◌≡◌};
ghost use Rattle.figures.specs.Outcome.{outcome};
ghost use Rattle.writing.specs.Writing.{room_after};
ghost use Rattle.grid.specs.Lent.{lent};
ghost use Rattle.listing.specs.Listing.{sheet_text, beginning};
ghost use Rattle.list_state.specs.State.{held_line};
ghost use Rattle.listing.specs.Pieces.{fed_text, fed_list, end_text};
ghost use Rattle.dagglehurst.specs.Reply.{reply};
ghost use Rattle.dagglehurst.specs.Header.{grid_in};
ghost use Rattle.dagglehurst.specs.Pieces.{list_in, feeding_in, finishing_in, state_after};

use super::memory::{self, list_in, put_list};
use super::numbers::grid_in;
use super::reply;
use figures::Refusal;
use grid::Grid;

// Begins a list: its first line.
#[unsafe(no_mangle)]
pub extern "C" fn dagglehurst_begin<'a>(
    header: &'a [i64],
    lat: &'a [i64],
    lon: &'a [i64],
    room: &mut [u8],
) -> u64
    ensures answer { result ≡ reply (beginning (grid_in header.now lat.now lon.now) room.old) }
    ensures room { room.new ≡ room_after (beginning (grid_in header.now lat.now lon.now) room.old) (sheet_text (grid_in header.now lat.now lon.now)) room.old }
{
    reply::of(listing::begin(grid_in(header, lat, lon), room))
}

// Replies to the lines that end in the next piece of the requests.
#[unsafe(no_mangle)]
pub extern "C" fn dagglehurst_feed<'a>(
    header: &'a [i64],
    lat: &'a [i64],
    lon: &'a [i64],
    line: &mut [u8],
    state: &mut [i64],
    piece: &[u8],
    room: &mut [u8],
) -> u64
    ensures answer { result ≡ reply (feeding_in (grid_in header.now lat.now lon.now) line.old state.old piece.now room.old) }
    ensures line { line.new ≡ room_after (feeding_in (grid_in header.now lat.now lon.now) line.old state.old piece.now room.old) (held_line (fed_list (grid_in header.now lat.now lon.now) (list_in line.old state.old) piece.now)) line.old }
    ensures state { state.new ≡ state_after (feeding_in (grid_in header.now lat.now lon.now) line.old state.old piece.now room.old) (fed_list (grid_in header.now lat.now lon.now) (list_in line.old state.old) piece.now) state.old }
    ensures room { room.new ≡ room_after (feeding_in (grid_in header.now lat.now lon.now) line.old state.old piece.now room.old) (fed_text (grid_in header.now lat.now lon.now) (list_in line.old state.old) piece.now) room.old }
{
    let grid = grid_in(header, lat, lon);
    reply::of(feed(grid, line, state, piece, room))
}

#[tactic(auto, using(figures::proofs::Laws::refused_first, figures::proofs::Laws::passed_first), unfolding(crate::specs::Pieces::feeding_in, crate::specs::Pieces::state_after, listing::specs::Pieces::feeding, writing::specs::Writing::room_after))]
fn feed(
    grid: Grid,
    line: &mut [u8],
    state: &mut [i64],
    piece: &[u8],
    room: &mut [u8],
) -> Result<usize, Refusal>
    ensures answer { outcome result ≡ feeding_in (lent grid.entry) line.old state.old piece.now room.old }
    ensures line { line.new ≡ room_after (outcome result) (held_line (fed_list (lent grid.entry) (list_in line.old state.old) piece.now)) line.old }
    ensures state { state.new ≡ state_after (outcome result) (fed_list (lent grid.entry) (list_in line.old state.old) piece.now) state.old }
    ensures room { room.new ≡ room_after (outcome result) (fed_text (lent grid.entry) (list_in line.old state.old) piece.now) room.old }
{
    // The refusals of the grid come first.
    if let Err(short) = memory::check(line, state) {
        grid.check()?;
        return Err(short);
    }
    let mut list = list_in(line, state);
    let written = listing::feed(&mut list, grid, piece, room)?;
    put_list(list, line, state);
    Ok(written)
}

// Ends a list: its last lines.
#[unsafe(no_mangle)]
pub extern "C" fn dagglehurst_finish(line: &[u8], state: &[i64], room: &mut [u8]) -> u64
    ensures answer { result ≡ reply (finishing_in line.now state.now room.old) }
    ensures room { room.new ≡ room_after (finishing_in line.now state.now room.old) (end_text (list_in line.now state.now)) room.old }
{
    reply::of(finish(line, state, room))
}

#[tactic(auto, using(figures::proofs::Laws::refused_first, figures::proofs::Laws::passed_first), unfolding(crate::specs::Pieces::finishing_in, writing::specs::Writing::room_after))]
fn finish(line: &[u8], state: &[i64], room: &mut [u8]) -> Result<usize, Refusal>
    ensures answer { outcome result ≡ finishing_in line.now state.now room.old }
    ensures room { room.new ≡ room_after (outcome result) (end_text (list_in line.now state.now)) room.old }
{
    memory::check(line, state)?;
    listing::finish(list_in(line, state), room)
}
