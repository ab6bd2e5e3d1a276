// Decimal numbers as text: an optional minus and 1 to 11 digits; no plus, no leading zero, no `-0`.
#![tactic(auto)]

mod reading;
mod spelling;

ghost use Rattle.std.specs.Prelude.{◌≡◌};
ghost use Rattle.writing.specs.Writing.{Wrote};
ghost use Rattle.decimal.specs.Spelling.{spell, number_in};

use figures::Refusal;
pub use spelling::put_number;

// A number as far as its text was read.
#[derive(Clone, Copy, PartialEq, Eq)]
pub struct Number {
    pub negative: bool,
    // What the digits say, once there is one.
    pub magnitude: Option<u64>,
}

// The number that a text is.
#[tactic(auto, using(crate::proofs::Whole::whole_start, crate::proofs::Whole::whole_byte, crate::proofs::Whole::whole_none, crate::proofs::Whole::whole_end))]
pub fn read_number(text: &[u8]) -> Option<i64>
    ensures { result ≡ number_in text.now }
{
    let mut number = Number::new();
    for byte in text {
        number = number.push(*byte)?;
    }
    number.finish()
}

// Writes a number over the front of the room. No number takes more than 20 bytes.
pub fn write_number(x: i64, room: &mut [u8]) -> Result<usize, Refusal>
    ensures { Wrote (spell x) room.old room.new result }
{
    writing::write(20, room, |room| put_number(x, room))
}
