// Texts as a script writes them. `\n`, `\r`, `\t`, `\0` and `\f` are a newline, a carriage return, a tab, a 0 and a 255, and
// `[PIECE*TIMES]` is a piece that comes so many times.
ghost use Rattle.std.specs.Prelude.{◌≡◌, ◌≤◌, [], ◌∷◌, ◌++◌, take};
ghost use Rattle.arrayvec.specs.ArrayVec.{array_vec_len};

use super::cursor::Cursor;
use arrayvec::ArrayVec;

// Room for a text that is made of a script.
pub type Text = ArrayVec<u8, 65_536>;

// Writes a text behind what stands in `out`, as far as there is room.
pub fn expand<const N: usize>(text: &[u8], out: &mut ArrayVec<u8, N>)
    ensures { array_vec_len out.old ≤ array_vec_len out.new }
{
    let mut text = Cursor::new(text);
    // Where the piece that is repeated begins.
    let mut mark = out.len();
    while let Some(byte) = text.next() {
        match byte {
            b'[' => mark = out.len(),
            b'*' => repeat(out, mark, text.unsigned()),
            b'\\' => put(out, escaped(text.next().unwrap_or(0))),
            _ => put(out, byte),
        }
    }
}

fn escaped(letter: u8) -> u8 {
    match letter {
        b'n' => b'\n',
        b'r' => b'\r',
        b't' => b'\t',
        b'0' => 0,
        b'f' => 0xff,
        _ => letter,
    }
}

// One byte more, if there is room.
fn put<const N: usize>(out: &mut ArrayVec<u8, N>, byte: u8)
    ensures put { out.new.items ≡ take N (out.old.items ++ byte ∷ []) }
    ensures grows { array_vec_len out.old ≤ array_vec_len out.new }
{
    let _ = out.try_push(byte);
}

// Writes the piece from `mark` on, which stands there once, so many times in all.
fn repeat<const N: usize>(out: &mut ArrayVec<u8, N>, mark: usize, times: usize)
    ensures { array_vec_len out.old ≤ array_vec_len out.new }
{
    let length = out.len().saturating_sub(mark);
    let more = length.saturating_mul(times.saturating_sub(1));
    for _ in 0..more.min(out.remaining_capacity()) {
        if let Some(byte) = out.get(out.len().saturating_sub(length)).copied() {
            put(out, byte);
        }
    }
}
