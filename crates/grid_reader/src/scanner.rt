// The scanner: one byte at a time, a state by value.
ghost use Rattle.std.specs.Prelude.{◌≡◌};
ghost use Rattle.figures.specs.Outcome.{outcome};
ghost use Rattle.figures.specs.declared.Refusal.{Refusal};
ghost use Rattle.grid_reader.specs.Scan.{number_sign, form_at, line_at, start, at_place, with_header, on, filled, header_end, node_end, count_end, closed, leads, grown, number_step, literal_step, step};

use super::form::{
    COLS, COUNT, DLAT, DLON, END_LINE, LAT, LON, NODE_LINE, ROWS, SOUTH, WEST, WHOLE, form_at,
    line_at,
};
use decimal::Number;
use figures::{Nad27, Refusal};
use grid::{Header, beyond_range};

// A text as far as it was read.
#[derive(Clone, Copy)]
pub(crate) struct Scan {
    // The place in the form, and the number under way there.
    pub at: usize,
    pub number: Number,
    // The header's numbers that were read, and how many nodes it says there are.
    pub header: Header,
    pub count: u16,
    // The node whose line is read, and its latitude shift.
    pub node: u16,
    pub lat: i64,
}

// What a byte leads to: the state behind it, and the shifts of the node whose line ends with it.
#[derive(Clone, Copy)]
pub(crate) struct Step {
    pub scan: Scan,
    pub node: Option<(i64, i64)>,
}

impl Scan {
    // Nothing was read.
    pub(crate) fn new() -> Scan
        ensures { result ≡ start }
    {
        Scan {
            at: 0,
            number: Number::new(),
            header: Header::new(0, 0, 0, 0, 0, 0),
            count: 0,
            node: 0,
            lat: 0,
        }
    }

    // The state after one more byte. `room` is the length of the shorter node slice.
    #[tactic(auto, unfolding(crate::specs::Scan::step))]
    pub(crate) fn advance(self, byte: u8, room: usize) -> Result<Step, Refusal>
        ensures { outcome result ≡ step room self byte }
    {
        if form_at(self.at) == b'#' {
            return self.number_step(byte, room);
        }
        self.literal_step(byte)
    }

    #[tactic(auto, unfolding(crate::specs::Scan::literal_step))]
    fn literal_step(self, byte: u8) -> Result<Step, Refusal>
        ensures { outcome result ≡ literal_step self byte }
    {
        if WHOLE <= self.at || byte != form_at(self.at) {
            return Err(self.departure());
        }
        Ok(self.at_place(self.at + 1).on())
    }

    #[tactic(auto, unfolding(crate::specs::Scan::number_step))]
    fn number_step(self, byte: u8, room: usize) -> Result<Step, Refusal>
        requires { form_at self.at ≡ number_sign }
        ensures { outcome result ≡ number_step room self byte }
    {
        if byte == form_at(self.at + 1) {
            let x = self.number.finish().ok_or_else(|| self.departure())?;
            return self.close(x, room);
        }
        let number = self.number.push(byte).ok_or_else(|| self.departure())?;
        self.grow(number)
    }

    // The number of nodes is known before it is read.
    #[tactic(auto, unfolding(crate::specs::Scan::grown))]
    fn grow(self, number: Number) -> Result<Step, Refusal>
        ensures { outcome result ≡ grown self number }
    {
        if self.at == COUNT && !leads(number, self.count) {
            return Err(self.departure());
        }
        Ok(Scan { number, ..self }.on())
    }

    // A number has ended that is `x`.
    #[tactic(auto, unfolding(crate::specs::Scan::closed))]
    fn close(self, x: i64, room: usize) -> Result<Step, Refusal>
        ensures { outcome result ≡ closed room self x }
    {
        match self.at {
            at if at < COLS => Ok(self.fill(x).at_place(at + 2).on()),
            COLS => self.fill(x).end_header(room),
            LAT => Ok(Scan { lat: x, ..self }.at_place(LON).on()),
            LON => self.end_node(x),
            _ => self.end_count(x),
        }
    }

    // A number of the header has its place there.
    #[tactic(auto, unfolding(crate::specs::Scan::filled))]
    fn fill(self, x: i64) -> Scan
        ensures { result ≡ with_header self (filled self.at x self.header) }
    {
        let h = self.header;
        let header = match self.at {
            SOUTH => Header {
                south: Nad27(x),
                ..h
            },
            WEST => Header {
                west: Nad27(x),
                ..h
            },
            DLAT => Header { dlat: x, ..h },
            DLON => Header { dlon: x, ..h },
            ROWS => Header { rows: x, ..h },
            COLS => Header { cols: x, ..h },
            _ => h,
        };
        Scan { header, ..self }
    }

    // The header is whole: its rules, then the room for its nodes.
    #[tactic(auto, unfolding(crate::specs::Scan::header_end))]
    fn end_header(self, room: usize) -> Result<Step, Refusal>
        ensures { outcome result ≡ header_end room self }
    {
        let shape = self.header.check()?;
        let n = shape.rows * shape.cols;
        if room < n {
            return Err(Refusal::NodeRoom(n));
        }
        let count = n as u16;
        Ok(Scan { count, ..self }.at_place(NODE_LINE).on())
    }

    // The line of a node is whole: its range, then whether another node follows.
    #[tactic(auto, unfolding(crate::specs::Scan::node_end))]
    fn end_node(self, lon: i64) -> Result<Step, Refusal>
        ensures { outcome result ≡ node_end self lon }
    {
        if beyond_range(self.lat) || beyond_range(lon) {
            return Err(Refusal::Range(self.node as usize));
        }
        let node = self.node.saturating_add(1);
        let scan = if node < self.count {
            Scan { node, ..self }.at_place(NODE_LINE)
        } else {
            self.at_place(END_LINE)
        };
        Ok(Step {
            scan,
            node: Some((self.lat, lon)),
        })
    }

    #[tactic(auto, unfolding(crate::specs::Scan::count_end))]
    fn end_count(self, x: i64) -> Result<Step, Refusal>
        ensures { outcome result ≡ count_end self x }
    {
        if x != self.count as i64 {
            return Err(self.departure());
        }
        Ok(self.at_place(WHOLE).on())
    }

    // On to a place of the form, with no number under way.
    fn at_place(self, at: usize) -> Scan
        ensures { result ≡ at_place self at }
    {
        Scan {
            at,
            number: Number::new(),
            ..self
        }
    }

    // No line of a node has ended.
    fn on(self) -> Step
        ensures { outcome (Ok result) ≡ on self }
    {
        Step {
            scan: self,
            node: None,
        }
    }

    // The text departs from the form.
    pub(crate) fn departure(self) -> Refusal
        ensures { result ≡ Refusal.Form (line_at self.at self.node) }
    {
        Refusal::Form(line_at(self.at, self.node))
    }
}

// Whether the digits of a number are the first of those of `count`, which has at most four.
#[tactic(auto, unfolding(crate::specs::Scan::leads))]
fn leads(number: Number, count: u16) -> bool
    ensures { result ≡ leads number count }
{
    let n = count as u64;
    match number.magnitude {
        Some(m) => !number.negative && 0 < m && [n, n / 10, n / 100, n / 1000].contains(&m),
        None => false,
    }
}
