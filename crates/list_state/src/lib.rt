// A list as far as it has come: the line whose newline has not come yet, and the totals.
#![tactic(auto)]

ghost use Rattle.std.specs.Prelude.{◌≡◌, [], ◌++◌, take};
ghost use Rattle.figures.specs.Outcome.{outcome};
ghost use Rattle.requests.specs.Requests.{request_in};
ghost use Rattle.list_state.specs.State.{counted, totals_reply, listing_of, fresh, held_line};

use figures::Refusal;
use requests::{Reply, Request};
use slices::put_all;

#[derive(Clone, Copy)]
pub struct Listing {
    // The first bytes of the line that has not ended, and how many. 65 stand for every line above 64 bytes.
    held: [u8; HELD],
    pub length: usize,
    pub totals: Totals,
}

// How many lines were answered, and how many were refused.
#[derive(Clone, Copy)]
pub struct Totals {
    pub answered: i64,
    pub refused: i64,
}

const HELD: usize = 65;

impl Listing {
    // No byte was read yet.
    pub fn new() -> Listing
        ensures { result ≡ fresh }
    {
        Listing::between(Totals {
            answered: 0,
            refused: 0,
        })
    }

    // No line is under way.
    #[tactic(auto, unfolding(laws::specs::Over::over))]
    pub fn between(totals: Totals) -> Listing
        ensures { result ≡ listing_of [] totals }
    {
        Listing {
            held: [0; HELD],
            length: 0,
            totals,
        }
    }

    // A list that goes on from plain parts: the line that has not ended, and the totals.
    pub fn resumed(line: &[u8], totals: Totals) -> Listing
        ensures { result ≡ listing_of (take 65 line.now) totals }
    {
        Listing::between(totals).hold(line)
    }

    // The line that has not ended, 65 bytes at the most.
    pub fn line(&self) -> &[u8]
        ensures { result.now ≡ held_line self.now }
    {
        &self.held[..self.length.min(HELD)]
    }

    // With more bytes of its line, of which the first 65 are kept.
    pub fn hold(self, part: &[u8]) -> Listing
        ensures { result ≡ listing_of (take 65 (held_line self ++ part.now)) self.totals }
    {
        let line = self.line();
        let mut held = [0; HELD];
        put_all(&mut held, 0, line);
        put_all(&mut held, line.len(), part);
        Listing {
            held,
            length: (line.len() + part.len()).min(HELD),
            ..self
        }
    }

    // What its line asks, whose last bytes are `part`.
    pub fn asks(self, part: &[u8]) -> Result<Request, Refusal>
        ensures { outcome result ≡ request_in (held_line self ++ part.now) }
    {
        if self.length == 0 {
            return requests::read_request(part);
        }
        let whole = self.hold(part);
        requests::read_request(whole.line())
    }
}

impl Totals {
    // With a line that has ended, and was replied to. A total stays at the greatest number there is.
    #[tactic(auto, using(crate::proofs::Holding::counted_more))]
    pub fn count(self, reply: Reply) -> Totals
        ensures { result ≡ counted self reply }
    {
        if reply.is_answer() {
            return Totals {
                answered: self.answered.saturating_add(1),
                ..self
            };
        }
        Totals {
            refused: self.refused.saturating_add(1),
            ..self
        }
    }

    // The last line of a list.
    pub fn reply(self) -> Reply
        ensures { result ≡ totals_reply self }
    {
        Reply::Done(self.answered, self.refused)
    }
}
