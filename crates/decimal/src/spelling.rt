// A number written from its leading digit.
ghost use Rattle.std.specs.Prelude.{◌≤◌};
ghost use Rattle.writing.specs.Writing.{Put};
ghost use Rattle.decimal.specs.Spelling.{digits, spell};

use slices::put;
use writing::put_behind;

fn put_digits(n: u64, room: &mut [u8]) -> usize
    ensures { (Put (digits n) room.old room.new result) × (result ≤ 20) }
{
    let at = if n < 10 { 0 } else { put_digits(n / 10, room) };
    put(room, at, b'0' + (n % 10) as u8);
    at + 1
}

// Puts a number over the front of the room.
pub fn put_number(x: i64, room: &mut [u8]) -> usize
    ensures { Put (spell x) room.old room.new result }
{
    let size = x.unsigned_abs();
    if 0 <= x {
        return put_digits(size, room);
    }
    put(room, 0, b'-');
    put_behind(1, room, |rest| put_digits(size, rest))
}
