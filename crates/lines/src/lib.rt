// Lines of text written into lent room: a key, and any number of numbers with commas between.
#![tactic(auto)]

ghost use Rattle.std.specs.Prelude.{◌+◌, ◌*◌, ◌≤◌, ◌++◌, length};
ghost use Rattle.writing.specs.Writing.{Wrote, Put};
ghost use Rattle.decimal.specs.Spelling.{spell};
ghost use Rattle.lines.specs.Text.{separator, listed, line};

use decimal::put_number;
use figures::Refusal;
use slices::put;
use writing::{put_behind, put_text};

// Writes a line over the front of the room. A number and the byte behind it take no more than 21 bytes, so most rooms are known to be
// long enough.
pub fn write_line(key: &[u8], numbers: &[i64], room: &mut [u8]) -> Result<usize, Refusal>
    ensures { Wrote (line key.now numbers.now) room.old room.new result }
{
    let enough = key
        .len()
        .saturating_add(numbers.len().saturating_mul(21))
        .saturating_add(1);
    writing::write(enough, room, |room| put_line(key, numbers, room))
}

// Puts a line over the front of the room.
pub fn put_line(key: &[u8], numbers: &[i64], room: &mut [u8]) -> usize
    ensures put { Put (line key.now numbers.now) room.old room.new result }
    ensures short { length (line key.now numbers.now) ≤ length key.now + 21 * length numbers.now + 1 }
{
    let start = put_text(key, room);
    let end = put_behind(start, room, |rest| put_numbers(numbers, rest));
    put(room, end, b'\n');
    end.saturating_add(1)
}

fn put_numbers(numbers: &[i64], room: &mut [u8]) -> usize
    ensures put { Put (listed numbers.now) room.old room.new result }
    ensures short { length (listed numbers.now) ≤ 21 * length numbers.now }
{
    let mut at: usize = 0;
    for (k, x) in numbers.iter().enumerate() {
        at = put_behind(at, room, |rest| put_listed(k, *x, rest));
    }
    at
}

// Number `k` of a line, which stands behind a comma unless it is the first.
fn put_listed(k: usize, x: i64, room: &mut [u8]) -> usize
    ensures put { Put (separator k ++ spell x) room.old room.new result }
    ensures short { length (separator k ++ spell x) ≤ 21 }
{
    if k == 0 {
        return put_number(x, room);
    }
    put(room, 0, b',');
    put_behind(1, room, |rest| put_number(x, rest))
}
