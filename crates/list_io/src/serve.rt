// The sitting: request lines from a reader, and a reply to each as soon as it has ended.
use super::ended::Ended;
use super::{Stopped, send};
use grid::Grid;
use list_state::Listing;
use requests::Reply;
use std::io::Read;

// The most bytes that are read at once. Every read has the grid checked again, so that few large reads are better than many small ones.
const BLOCK: usize = 65_536;

// Room for the longest line in reply to each byte of a block: the replies to a block always fit.
const ROOM: usize = Reply::MAX_TEXT * BLOCK;

pub(crate) fn serve<R: Print, I: Read>(rt: &R, requests: &mut I, grid: Grid) -> Result<(), Ended> {
    let mut room = [0; ROOM];
    serve_in(rt, requests, grid, &mut room)
}

// A proved loop has to end, and nothing says that the input does. So the loop counts its reads, up to a number that no run uses up.
fn serve_in<R: Print, I: Read>(
    rt: &R,
    requests: &mut I,
    grid: Grid,
    room: &mut [u8],
) -> Result<(), Ended> {
    let sheet = listing::begin(grid, room)?;
    send(rt, &room[..sheet])?;
    let mut list = Listing::new();
    let mut block = [0; BLOCK];
    for _ in 0..u64::MAX {
        let n = requests.read(&mut block).map_err(Stopped::Input)?;
        if n == 0 {
            let totals = listing::finish(list, room)?;
            send(rt, &room[..totals])?;
            break;
        }
        let replies = listing::feed(&mut list, grid, &block[..n], room)?;
        send(rt, &room[..replies])?;
    }
    Ok(())
}
