// A text that is accepted, read and written again.
use figures::Refusal;
use text_round_trip::read_and_write;

// What a byte of the room is before a call.
const BEFORE: u8 = 7;

// Whether it comes again, with the byte behind it as it was, and is refused where the room is one byte too short.
pub(crate) fn comes_again(text: &[u8]) -> bool {
    let mut room = [0; 65_536];
    fits(text, &mut room) && is_refused_short(text, &mut room)
}

fn fits(text: &[u8], room: &mut [u8]) -> bool {
    if let Some(behind) = room.get_mut(text.len()) {
        *behind = BEFORE;
    }
    read_and_write(text, room) == Ok(text.len())
        && room.get(text.len()) == Some(&BEFORE)
        && room.starts_with(text)
}

// Whether the room is refused as too short, and stays as it was.
fn is_refused_short(text: &[u8], room: &mut [u8]) -> bool {
    let Some(room) = room.get_mut(..text.len().saturating_sub(1)) else {
        return false;
    };
    if let Some(first) = room.first_mut() {
        *first = BEFORE;
    }
    read_and_write(text, room) == Err(Refusal::Room(text.len())) && room.first() == Some(&BEFORE)
}
