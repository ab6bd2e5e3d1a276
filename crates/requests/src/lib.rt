// Request lines, what they ask, and the lines that reply to them.
#![tactic(auto)]

mod replies;
mod words;

ghost use Rattle.std.specs.Prelude.{◌≡◌};
ghost use Rattle.figures.specs.Outcome.{outcome};
ghost use Rattle.requests.specs.Requests.{request_in};

use convert::Shifted;
use figures::{Point27, Point83, Refusal};

#[derive(Clone, Copy)]
pub enum Request {
    // The NAD 83 answer of a NAD 27 point.
    To83(Point27),
    // The NAD 27 point of a NAD 83 figure.
    To27(Point83),
}

// A line of the list.
#[derive(Clone, Copy)]
pub enum Reply {
    // The number of nodes of the grid.
    Sheet(i64),
    In83(Shifted),
    In27(Point27),
    // The number of a refusal.
    No(i64),
    // The number and the place of a refusal: the grid is refused, and there is no list.
    NoSheet(i64, i64),
    // How many request lines were answered, and how many were refused.
    Done(i64, i64),
}

// The longest line, without its newline.
pub const MAX_LINE: usize = 64;

// What a line asks, without its newline. A request line is refused by its number alone, so it has no place: 0.
#[tactic(auto, unfolding(crate::specs::Requests::request_in))]
pub fn read_request(line: &[u8]) -> Result<Request, Refusal>
    ensures { outcome result ≡ request_in line.now }
{
    if MAX_LINE < line.len() {
        return Err(Refusal::Form(0));
    }
    words::read_line(line)
}
