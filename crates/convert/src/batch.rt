// A batch of requests, converted with one check of the grid. A request is the number of a way and two numbers, latitude first.
ghost use Rattle.std.specs.Prelude.{◌≡◌, ◌+◌, ◌*◌, ◌≤◌, ◌<◌, length};
ghost use Rattle.figures.specs.Outcome.{outcome};
ghost use Rattle.grid.specs.Lent.{lent};
ghost use Rattle.convert.specs.Convert.{to83};
ghost use Rattle.convert.specs.Batch.{number_of, way_of, converted, request_outcome, room_for, converting, stored, refusal_number, answers_to, refusals_to, answers_after, refusals_after};

use super::{Shifted, forward, inverse};
use figures::{Point27, Point83, Refusal};
use grid::{CheckedGrid, Grid};

// What a request asks: its point's figure in NAD 83, or the point of its figure in NAD 27.
#[derive(Clone, Copy, PartialEq, Eq)]
pub enum Way {
    To83,
    To27,
}

// The numbers of the ways. 0 is none, so that ways that nobody has filled in are refused.
impl From<Way> for u8 {
    ghost from_gives = { λ way n. n ≡ number_of way };

    fn from(way: Way) -> u8 {
        match way {
            Way::To83 => 1,
            Way::To27 => 2,
        }
    }
}

// A way that does not exist is refused 1.
impl TryFrom<u8> for Way {
    type Error = Refusal;

    ghost try_from_gives = { λ n r. outcome r ≡ way_of n };

    fn try_from(number: u8) -> Result<Way, Refusal> {
        match number {
            1 => Ok(Way::To83),
            2 => Ok(Way::To27),
            _ => Err(Refusal::Form(0)),
        }
    }
}

// An answer, by its way.
#[derive(Clone, Copy, PartialEq, Eq)]
pub enum Converted {
    In83(Shifted),
    In27(Point27),
}

// Converts a request for each way, its two numbers one after the other in `points`: 2, 5, 3, 4, 14, then 8. Its answer has four places in
// `answers`; the way back leaves the two of the signs as they were, and a request that is refused all four. A way that does not exist is
// refused 1.
pub fn convert_batch(
    grid: Grid,
    ways: &[u8],
    points: &[i64],
    answers: &mut [i64],
    refusals: &mut [u8],
) -> Result<usize, Refusal>
    ensures answer { outcome result ≡ converting (lent grid.entry) ways.now points.now answers.old refusals.old }
    ensures answers { answers.new ≡ answers_after (converting (lent grid.entry) ways.now points.now answers.old refusals.old) (request_outcome (lent grid.entry) ways.now points.now) answers.old }
    ensures refusals { refusals.new ≡ refusals_after (converting (lent grid.entry) ways.now points.now answers.old refusals.old) (request_outcome (lent grid.entry) ways.now points.now) refusals.old }
{
    let checked = grid.check()?;
    let n = check_room(ways, points, answers, refusals)?;
    fill(checked, ways, points, answers, refusals);
    Ok(n)
}

// How many requests there are, if there is room for them.
#[tactic(auto, unfolding(crate::specs::Batch::room_for))]
fn check_room(
    ways: &[u8],
    points: &[i64],
    answers: &[i64],
    refusals: &[u8],
) -> Result<usize, Refusal>
    ensures { outcome result ≡ room_for (length ways.now) points.now answers.now refusals.now }
{
    let n = ways.len();
    if points.len() < 2 * n {
        Err(Refusal::Room(2 * n))
    } else if answers.len() < 4 * n {
        Err(Refusal::Room(4 * n))
    } else if refusals.len() < n {
        Err(Refusal::Room(n))
    } else {
        Ok(n)
    }
}

fn fill(checked: CheckedGrid, ways: &[u8], points: &[i64], answers: &mut [i64], refusals: &mut [u8])
    requires { (2 * length ways.now ≤ length points.now) × (4 * length ways.now ≤ length answers.old) × (length ways.now ≤ length refusals.old) }
    ensures answers { answers.new ≡ answers_to (request_outcome (lent checked.entry.grid) ways.now points.now) (length ways.now) answers.old }
    ensures refusals { refusals.new ≡ refusals_to (request_outcome (lent checked.entry.grid) ways.now points.now) (length ways.now) refusals.old }
{
    for (k, way) in ways.iter().enumerate() {
        let answer = convert_one(checked, *way, points[2 * k], points[2 * k + 1]);
        refusals[k] = store(answer, k, answers);
    }
}

// One request, over a grid that was checked.
fn convert_one(checked: CheckedGrid, way: u8, y: i64, x: i64) -> Result<Converted, Refusal>
    ensures { outcome result ≡ converted (lent checked.entry.grid) way y x }
{
    match Way::try_from(way)? {
        Way::To83 => Ok(Converted::In83(forward(checked, Point27::new(y, x))?)),
        Way::To27 => Ok(Converted::In27(inverse(checked, Point83::new(y, x))?)),
    }
}

// Stores the answer of request `k` in its places, and answers the number of its refusal, or 0.
fn store(answer: Result<Converted, Refusal>, k: usize, answers: &mut [i64]) -> u8
    requires { 4 * k + 4 ≤ length answers.old }
    ensures number { result ≡ refusal_number (outcome answer) }
    ensures answers { answers.new ≡ stored k (outcome answer) answers.old }
{
    match answer {
        Err(why) => why.number() as u8,
        Ok(Converted::In83(shifted)) => {
            let [lat, lon, lat_sign, lon_sign] = shifted.numbers();
            answers[4 * k] = lat;
            answers[4 * k + 1] = lon;
            answers[4 * k + 2] = lat_sign;
            answers[4 * k + 3] = lon_sign;
            0
        }
        Ok(Converted::In27(point)) => {
            answers[4 * k] = point.lat.0;
            answers[4 * k + 1] = point.lon.0;
            0
        }
    }
}
