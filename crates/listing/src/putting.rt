// The texts of a list. In a room of no bytes they are only counted.
ghost use Rattle.writing.specs.Writing.{Put};
ghost use Rattle.grid.specs.Lent.{lent};
ghost use Rattle.listing.specs.Listing.{list_text};
ghost use Rattle.listing.specs.Pieces.{end_text};
ghost use Rattle.listing.specs.Needs.{FedFront, FedWhole};

use super::batch::{Batch, line_end};
use grid::CheckedGrid;
use list_state::Listing;
use requests::Reply;
use writing::put_behind;

// How far a text was worked: the bytes that were read, and those that were written.
#[derive(Clone, Copy)]
pub(crate) struct Advance {
    pub taken: usize,
    pub bytes: usize,
}

// The replies to the lines that end in a piece, by which the list goes on.
pub(crate) fn put_replies(
    list: &mut Listing,
    grid: CheckedGrid,
    piece: &[u8],
    room: &mut [u8],
) -> usize
    ensures { FedWhole (lent grid.entry.grid) list.old piece.now list.new room.old room.new result }
{
    *list = list.hold(&[]);
    let mut rest = piece;
    let mut bytes: usize = 0;
    while !rest.is_empty() {
        let from = bytes.min(room.len());
        let front = put_batch(list, grid, rest, &mut room[from..]);
        rest = &rest[front.taken..];
        bytes = bytes.saturating_add(front.bytes);
    }
    bytes
}

// The replies to the first lines that end in a text, as many as a batch holds. If none ends, the text is held.
fn put_batch(list: &mut Listing, grid: CheckedGrid, text: &[u8], room: &mut [u8]) -> Advance
    ensures { FedFront (lent grid.entry.grid) list.old text.now list.new room.old room.new result }
{
    // A batch is large, and is made only where there is something to convert.
    if line_end(text).is_none() {
        *list = list.hold(text);
        return Advance {
            taken: text.len(),
            bytes: 0,
        };
    }
    let mut batch = Batch::new();
    let taken = batch.read(*list, text);
    batch.convert(grid);
    let bytes = batch.put(&mut list.totals, room);
    *list = Listing::between(list.totals);
    Advance { taken, bytes }
}

// The last request line, if it has no newline, and the totals.
pub(crate) fn put_end(list: Listing, room: &mut [u8]) -> usize
    ensures { Put (end_text list) room.old room.new result }
{
    if list.length == 0 {
        return list.totals.reply().put(room);
    }
    let no = Reply::No(1);
    let done = list.totals.count(no).reply();
    put_behind(no.put(room), room, |rest| done.put(rest))
}

// The whole list.
pub(crate) fn put_list(grid: CheckedGrid, text: &[u8], room: &mut [u8]) -> usize
    ensures { Put (list_text (lent grid.entry.grid) text.now) room.old room.new result }
{
    let mut list = Listing::new();
    let start = Reply::Sheet(grid.node_count() as i64).put(room);
    let from = start.min(room.len());
    let replies = put_replies(&mut list, grid, text, &mut room[from..]);
    put_behind(start.saturating_add(replies), room, |rest| {
        put_end(list, rest)
    })
}
