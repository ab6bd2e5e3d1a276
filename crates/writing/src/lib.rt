// Text written into lent room. A `put_*` function counts the bytes of a text, and writes it where the room has them all: a room of none is
// enough to count. A `write_*` function refuses a room that is too short, and leaves it as it was.
#![tactic(auto)]

ghost use Rattle.std.specs.Prelude.{ℕ, List, length, ◌≤◌};
ghost use Rattle.writing.specs.Writing.{Wrote, Put, Puts, Called, Added};

use figures::Refusal;

// Puts a text over the front of the room.
pub fn put_text(text: &[u8], room: &mut [u8]) -> usize
    ensures { Put text.now room.old room.new result }
{
    if text.len() <= room.len() {
        // A loop, since the library's copy may want `memmove` of whoever links the library for C.
        for (k, byte) in text.iter().enumerate() {
            room[k] = *byte;
        }
    }
    text.len()
}

// Writes a text over the front of the room.
pub fn write_text(text: &[u8], room: &mut [u8]) -> Result<usize, Refusal>
    ensures { Wrote text.now room.old room.new result }
{
    write(text.len(), room, |room| put_text(text, room))
}

// Writes what `put` puts. A room of `enough` bytes is known to be long enough; for any other the bytes are counted first.
pub fn write<F: Fn(&mut [u8]) -> usize>(
    enough: usize,
    room: &mut [u8],
    put: F,
) -> Result<usize, Refusal>
    requires { F.IsAlwaysCallable put }
    ensures wrote { (text : List ℕ) → Puts F.Fn put text → (enough ≤ length room.old → length text ≤ length room.old) → Wrote text room.old room.new result }
    ensures called { Called F.Fn put }
{
    if room.len() < enough {
        let needed = put(&mut room[..0]);
        if room.len() < needed {
            return Err(Refusal::Room(needed));
        }
    }
    Ok(put(room))
}

// Puts a part into what the first `at` bytes leave of the room. The answer is the place behind the part.
pub fn put_behind<F: Fn(&mut [u8]) -> usize>(at: usize, room: &mut [u8], put: F) -> usize
    requires { F.IsAlwaysCallable put }
    ensures added { (part : List ℕ) → Puts F.Fn put part → Added part at room.old room.new result }
    ensures called { Called F.Fn put }
{
    let from = at.min(room.len());
    at.saturating_add(put(&mut room[from..]))
}
