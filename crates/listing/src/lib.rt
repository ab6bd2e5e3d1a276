// The list: one reply for each request line, for a whole text or as its bytes come.
#![tactic(auto)]

mod batch;
mod putting;

ghost use Rattle.std.specs.Prelude.{◌≡◌, ◌≤◌, length, IfOk};
ghost use Rattle.figures.specs.Outcome.{outcome};
ghost use Rattle.writing.specs.Writing.{room_after, Wrote};
ghost use Rattle.grid.specs.Lent.{lent};
ghost use Rattle.listing.specs.Listing.{sheet_text, list_text, beginning, listing};
ghost use Rattle.listing.specs.Pieces.{fed_text, fed_list, feeding, end_text, list_after};

use figures::Refusal;
use grid::Grid;
use list_state::Listing;
use putting::{put_end, put_list, put_replies};
use requests::Reply;
use writing::write;

// The first line of a list: 2, 5, 3, 4, 14, then 8.
#[tactic(auto, using(figures::proofs::Laws::refused_first), unfolding(crate::specs::Listing::beginning, writing::specs::Writing::room_after))]
pub fn begin(grid: Grid, room: &mut [u8]) -> Result<usize, Refusal>
    ensures answer { outcome result ≡ beginning (lent grid.entry) room.old }
    ensures text { room.new ≡ room_after (outcome result) (sheet_text (lent grid.entry)) room.old }
    ensures within { IfOk result (λ n. n ≤ length room.new) }
{
    let nodes = grid.check()?.node_count();
    Reply::Sheet(nodes as i64).write(room)
}

// The replies to the lines that end in the next piece of the requests: 2, 5, 3, 4, 14, then 8, for an empty piece too. Where it is refused,
// the list stays as it was.
#[tactic(auto, using(figures::proofs::Laws::refused_first), unfolding(crate::specs::Pieces::feeding, grid::specs::Check::verdict, writing::specs::Writing::room_after))]
pub fn feed(list: &mut Listing, grid: Grid, piece: &[u8], room: &mut [u8]) -> Result<usize, Refusal>
    ensures answer { outcome result ≡ feeding (lent grid.entry) list.old piece.now room.old }
    ensures list { list.new ≡ list_after (outcome result) (fed_list (lent grid.entry) list.old piece.now) list.old }
    ensures text { room.new ≡ room_after (outcome result) (fed_text (lent grid.entry) list.old piece.now) room.old }
    ensures within { IfOk result (λ n. n ≤ length room.new) }
{
    let grid = grid.check()?;
    // No reply is longer than the longest line, and each needs a byte of the piece: most rooms are known to be long enough.
    if room.len() / Reply::MAX_TEXT < piece.len() {
        let mut trial = *list;
        let needed = put_replies(&mut trial, grid, piece, &mut room[..0]);
        if room.len() < needed {
            return Err(Refusal::Room(needed));
        }
    }
    Ok(put_replies(list, grid, piece, room))
}

// The last lines of a list: its last request line, if that has no newline, and the totals.
pub fn finish(list: Listing, room: &mut [u8]) -> Result<usize, Refusal>
    ensures wrote { Wrote (end_text list) room.old room.new result }
    ensures within { IfOk result (λ n. n ≤ length room.new) }
{
    write(usize::MAX, room, |room| put_end(list, room))
}

// The whole list for a request text: 2, 5, 3, 4, 14, then 8.
#[tactic(auto, using(figures::proofs::Laws::refused_first), unfolding(crate::specs::Listing::listing, writing::specs::Writing::room_after))]
pub fn list(grid: Grid, text: &[u8], room: &mut [u8]) -> Result<usize, Refusal>
    ensures answer { outcome result ≡ listing (lent grid.entry) text.now room.old }
    ensures text { room.new ≡ room_after (outcome result) (list_text (lent grid.entry) text.now) room.old }
    ensures within { IfOk result (λ n. n ≤ length room.new) }
{
    let checked = grid.check()?;
    write(usize::MAX, room, |room| put_list(checked, text, room))
}
