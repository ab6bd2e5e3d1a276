// A batch of request lines: they are read side by side into ways and points, as `convert` takes them, converted by one call, and replied
// to.
ghost use Rattle.std.specs.Prelude.{◌≡◌, ◌<◌, ◌≤◌, map};
ghost use Rattle.figures.specs.Outcome.{outcome};
ghost use Rattle.grid.specs.Lent.{lent};
ghost use Rattle.std.specs.List.{position};
ghost use Rattle.listing.specs.Filed.{max_batch, is_newline};

use convert::Shifted;
use convert::batch::{Way, convert_batch};
use figures::{Point27, Point83, Refusal};
use grid::CheckedGrid;
use list_state::{Listing, Totals};
use requests::{Reply, Request};
use shift::Signs;
use writing::put_behind;

// The most lines of a batch, the numbers of their points and those of their answers.
const LINES: usize = 2_048;

const POINTS: usize = 4_096;

const ANSWERS: usize = 8_192;

// Line `k` has a way, two numbers of its point, four of its answer, and the number of its refusal or 0.
#[derive(Drop)]
pub(crate) struct Batch {
    ways: [u8; LINES],
    points: [i64; POINTS],
    answers: [i64; ANSWERS],
    refusals: [u8; LINES],
    pub lines: usize,
    ghost few: { lines ≤ max_batch },
}

impl Batch {
    ghost use Rattle.std.specs.Prelude.{set};
    ghost use Rattle.requests.specs.Replies.{reply_to};
    ghost use Rattle.listing.specs.Filed.{filed, pair_put};
    ghost use Rattle.listing.specs.Batch.{requests_of, reply_at, replies_of, BatchRead, RepliesPut};

    pub(crate) fn new() -> Batch {
        Batch {
            ways: [0; LINES],
            points: [0; POINTS],
            answers: [0; ANSWERS],
            refusals: [0; LINES],
            lines: 0,
        }
    }

    // Reads the first lines that end in a text, and answers how many of its bytes they take. The first of them goes on from what the list
    // holds.
    pub(crate) fn read(&mut self, list: Listing, text: &[u8]) -> usize
        ensures { BatchRead list text.now self.new result }
    {
        let mut line = list;
        let mut taken = 0;
        for k in 0..LINES {
            let Some(end) = line_end(&text[taken..]) else {
                self.lines = k;
                return taken;
            };
            self.file(k, line.asks(&text[taken..taken + end]));
            line = Listing::new();
            taken += end + 1;
        }
        self.lines = LINES;
        taken
    }

    // What line `k` asks. A line of another form has way 0, which is none: the batch refuses it 1.
    fn file(&mut self, k: usize, asked: Result<Request, Refusal>)
        requires { k < max_batch }
        ensures way { self.new.ways ≡ set self.old.ways k (filed (outcome asked)).way }
        ensures point { self.new.points ≡ pair_put k (filed (outcome asked)).lat (filed (outcome asked)).lon self.old.points }
    {
        let (way, lat, lon) = match asked {
            Ok(Request::To83(p)) => (Way::To83.into(), p.lat.0, p.lon.0),
            Ok(Request::To27(f)) => (Way::To27.into(), f.lat.0, f.lon.0),
            Err(_) => (0, 0, 0),
        };
        self.ways[k] = way;
        self.points[2 * k] = lat;
        self.points[2 * k + 1] = lon;
    }

    // Converts what the lines ask. The grid was checked and the arrays have the room, so the batch is not refused.
    pub(crate) fn convert(&mut self, grid: CheckedGrid)
        ensures lines { self.new.lines ≡ self.old.lines }
        ensures replies { replies_of self.new ≡ map (reply_to (lent grid.entry.grid)) (requests_of self.old) }
    {
        let ways = &self.ways[..self.lines];
        let _ = convert_batch(
            grid.grid,
            ways,
            &self.points,
            &mut self.answers,
            &mut self.refusals,
        );
    }

    // Puts the replies to the lines, and counts them.
    pub(crate) fn put(&self, totals: &mut Totals, room: &mut [u8]) -> usize
        ensures { RepliesPut (replies_of self.now) self.now.lines totals.old totals.new room.old room.new result }
    {
        let mut bytes: usize = 0;
        for k in 0..self.lines {
            let reply = self.reply(k);
            *totals = totals.count(reply);
            bytes = put_behind(bytes, room, |rest| reply.put(rest));
        }
        bytes
    }

    // The reply to line `k`: by its way, its answer, and the number of its refusal or 0.
    fn reply(&self, k: usize) -> Reply
        requires { k < max_batch }
        ensures { result ≡ reply_at self.now k }
    {
        let number = self.refusals[k];
        if number != 0 {
            return Reply::No(i64::from(number));
        }
        let lat = self.answers[4 * k];
        let lon = self.answers[4 * k + 1];
        if self.ways[k] != u8::from(Way::To83) {
            return Reply::In27(Point27::new(lat, lon));
        }
        Reply::In83(Shifted {
            point: Point83::new(lat, lon),
            signs: Signs {
                lat: self.answers[4 * k + 2].into(),
                lon: self.answers[4 * k + 3].into(),
            },
        })
    }
}

// The place of the newline that ends the first line.
pub(crate) fn line_end(text: &[u8]) -> Option<usize>
    ensures { result ≡ position is_newline text.now }
{
    text.iter().position(|b| *b == b'\n')
}
