// A list in lent memory: the bytes of its line under way, and its numbers, how many bytes these are, the lines answered, the lines refused.
ghost use Rattle.std.specs.Prelude.{◌≡◌, ◌≤◌, length, IfOk};
ghost use Rattle.laws.specs.Over.{over};
ghost use Rattle.figures.specs.Outcome.{outcome};
ghost use Rattle.list_state.specs.State.{held_line};
ghost use Rattle.dagglehurst.specs.Pieces.{line_length, list_in, state_of, lent};

use super::numbers::first;
use figures::Refusal;
use list_state::{Listing, Totals};
use slices::put_all;

// The bytes that a line under way has at the most, and the numbers of a list.
const LINE: usize = 65;

const STATE: usize = 3;

// Whether the memory has the elements of a list.
#[tactic(auto, unfolding(crate::specs::Pieces::lent))]
pub(crate) fn check(line: &[u8], state: &[i64]) -> Result<(), Refusal>
    ensures answer { outcome result ≡ lent line.now state.now }
    ensures enough { IfOk result (λ passed. (65 ≤ length line.now) × (3 ≤ length state.now)) }
{
    if line.len() < LINE {
        Err(Refusal::Room(LINE))
    } else if state.len() < STATE {
        Err(Refusal::Room(STATE))
    } else {
        Ok(())
    }
}

pub(crate) fn list_in(line: &[u8], state: &[i64]) -> Listing
    requires { 65 ≤ length line.now }
    ensures { result ≡ list_in line.now state.now }
{
    let [held, answered, refused] = first::<STATE>(state);
    Listing::resumed(&line[..line_length(held)], Totals { answered, refused })
}

// The number of bytes that a number stands for, whatever it is.
fn line_length(x: i64) -> usize
    ensures { result ≡ line_length x }
{
    x.clamp(0, LINE as i64) as usize
}

pub(crate) fn put_list(list: Listing, line: &mut [u8], state: &mut [i64])
    requires { (65 ≤ length line.old) × (3 ≤ length state.old) }
    ensures line { line.new ≡ over (held_line list) line.old }
    ensures state { state.new ≡ over (state_of list) state.old }
{
    let held = list.line();
    let Totals { answered, refused } = list.totals;
    put_all(line, 0, held);
    put_all(state, 0, &[held.len() as i64, answered, refused]);
}
