// One point, either way. Its answer is stored as numbers, the latitude first.
ghost use Rattle.std.specs.Prelude.{◌≡◌};
ghost use Rattle.figures.specs.Outcome.{answered, outcome, map_answer};
ghost use Rattle.figures.specs.Points.{point27, point83};
ghost use Rattle.grid.specs.Lent.{lent};
ghost use Rattle.convert.specs.Convert.{to83, numbers83, numbers27, to27};
ghost use Rattle.dagglehurst.specs.Reply.{reply};
ghost use Rattle.dagglehurst.specs.Header.{grid_in};
ghost use Rattle.dagglehurst.specs.Points.{fitted, one, answer_after};

use super::numbers::grid_in;
use super::reply;
use convert::{to27, to83};
use figures::{Point27, Point83, Refusal};
use grid::Grid;
use slices::put_all;

// Converts the NAD 27 point `north`, `east` to NAD 83.
#[unsafe(no_mangle)]
pub extern "C" fn dagglehurst_to83<'a>(
    header: &'a [i64],
    lat: &'a [i64],
    lon: &'a [i64],
    north: i64,
    east: i64,
    answer: &mut [i64],
) -> u64
    ensures answer { result ≡ reply (map_answer one (fitted (map_answer numbers83 (to83 (grid_in header.now lat.now lon.now) (point27 north east))) answer.old)) }
    ensures room { answer.new ≡ answer_after (fitted (map_answer numbers83 (to83 (grid_in header.now lat.now lon.now) (point27 north east))) answer.old) answer.old }
{
    let grid = grid_in(header, lat, lon);
    reply::of(put_in83(grid, Point27::new(north, east), answer))
}

// Takes the NAD 83 figure `north`, `east` back to NAD 27.
#[unsafe(no_mangle)]
pub extern "C" fn dagglehurst_to27<'a>(
    header: &'a [i64],
    lat: &'a [i64],
    lon: &'a [i64],
    north: i64,
    east: i64,
    answer: &mut [i64],
) -> u64
    ensures answer { result ≡ reply (map_answer one (fitted (map_answer numbers27 (to27 (grid_in header.now lat.now lon.now) (point83 north east))) answer.old)) }
    ensures room { answer.new ≡ answer_after (fitted (map_answer numbers27 (to27 (grid_in header.now lat.now lon.now) (point83 north east))) answer.old) answer.old }
{
    let grid = grid_in(header, lat, lon);
    reply::of(put_in27(grid, Point83::new(north, east), answer))
}

#[tactic(auto, unfolding(crate::specs::Points::fitted, crate::specs::Points::answer_after))]
fn put_in83(grid: Grid, p: Point27, room: &mut [i64]) -> Result<usize, Refusal>
    ensures answer { outcome result ≡ map_answer one (fitted (map_answer numbers83 (to83 (lent grid.entry) p)) room.old) }
    ensures room { room.new ≡ answer_after (fitted (map_answer numbers83 (to83 (lent grid.entry) p)) room.old) room.old }
{
    let shifted = to83(grid, p)?;
    put_answer(&shifted.numbers(), room)
}

#[tactic(auto, unfolding(crate::specs::Points::fitted, crate::specs::Points::answer_after))]
fn put_in27(grid: Grid, f: Point83, room: &mut [i64]) -> Result<usize, Refusal>
    ensures answer { outcome result ≡ map_answer one (fitted (map_answer numbers27 (to27 (lent grid.entry) f)) room.old) }
    ensures room { room.new ≡ answer_after (fitted (map_answer numbers27 (to27 (lent grid.entry) f)) room.old) room.old }
{
    let p = to27(grid, f)?;
    put_answer(&[p.lat.0, p.lon.0], room)
}

// Stores an answer's numbers at the front of the room: one point was answered.
#[tactic(auto, unfolding(crate::specs::Points::fitted, crate::specs::Points::answer_after))]
fn put_answer(numbers: &[i64], room: &mut [i64]) -> Result<usize, Refusal>
    ensures answer { outcome result ≡ map_answer one (fitted (answered numbers.now) room.old) }
    ensures room { room.new ≡ answer_after (fitted (answered numbers.now) room.old) room.old }
{
    if room.len() < numbers.len() {
        return Err(Refusal::Room(numbers.len()));
    }
    put_all(room, 0, numbers);
    Ok(1)
}
