// The figures of the two datums, points of each, and the refusals.
#![tactic(auto)]

mod point;

ghost use Rattle.std.specs.Prelude.{◌≡◌, ℕ, ℤ};
ghost use Rattle.figures.specs.Refusal.{number_of, place_of};
ghost use Rattle.figures.specs.Points.{half_turn27, half_turn83, nad27, nad83};

pub use point::{Point, Point27, Point83};

// The figure of a datum: a coordinate, counted in the datum's own unit.
pub trait Figure: Copy {
    ghost figure: { ℤ → Self };

    // Half of the circle of its longitudes. A longitude is a place on that circle, each named once: by a number from -HALF_TURN to
    // HALF_TURN - 1.
    const HALF_TURN: usize;

    ghost HALF_TURN: { ℕ };

    fn new(count: i64) -> Self
        ensures { result ≡ figure count };
}

// A NAD 27 figure, in thousandths of an arc second.
#[derive(Clone, Copy, PartialEq, Eq)]
pub struct Nad27(pub i64);

// A NAD 83 figure, in hundred-thousandths of an arc second.
#[derive(Clone, Copy, PartialEq, Eq)]
pub struct Nad83(pub i64);

impl Figure for Nad27 {
    ghost figure = { nad27 };

    const HALF_TURN: usize = 648_000_000;

    ghost HALF_TURN = { half_turn27 };

    fn new(count: i64) -> Nad27 {
        Nad27(count)
    }
}

impl Figure for Nad83 {
    ghost figure = { nad83 };

    const HALF_TURN: usize = 64_800_000_000;

    ghost HALF_TURN = { half_turn83 };

    fn new(count: i64) -> Nad83 {
        Nad83(count)
    }
}

// Why the answer is no: one variant for each row of document 01's table, and for each refusal that a request of document 02 adds, with the
// place where that varies.
#[derive(Clone, Copy, PartialEq, Eq)]
pub enum Refusal {
    // 1: the line that is missing, extra or not of its form, from 1.
    Form(usize),
    // 2: the first header rule that is broken.
    Rule(usize),
    // 3: the lowest node with a shift beyond its range.
    Range(usize),
    // 4: the lowest node that is too steep to its east or north neighbour.
    Steep(usize),
    // 5: rows × cols, which a lent node slice is shorter than.
    NodeRoom(usize),
    // 6: the NAD 27 point is off the grid.
    OffGrid,
    // 7: no point of the grid has this answer.
    NoPoint,
    // 8: the bytes of text, or the numbers, that are needed, which the lent room is shorter than.
    Room(usize),
    // 9: 0 where the grid file can't be read, or the limit that it is longer than.
    File(usize),
    // 14: the lowest southwest node of a cell that is twisted too far.
    Twist(usize),
}

impl Refusal {
    pub fn number(self) -> usize
        ensures { result ≡ number_of self }
    {
        match self {
            Refusal::Form(_) => 1,
            Refusal::Rule(_) => 2,
            Refusal::Range(_) => 3,
            Refusal::Steep(_) => 4,
            Refusal::NodeRoom(_) => 5,
            Refusal::OffGrid => 6,
            Refusal::NoPoint => 7,
            Refusal::Room(_) => 8,
            Refusal::File(_) => 9,
            Refusal::Twist(_) => 14,
        }
    }

    pub fn place(self) -> usize
        ensures { result ≡ place_of self }
    {
        match self {
            Refusal::Form(line) => line,
            Refusal::Rule(rule) => rule,
            Refusal::Range(node) => node,
            Refusal::Steep(node) => node,
            Refusal::NodeRoom(nodes) => nodes,
            Refusal::OffGrid => 0,
            Refusal::NoPoint => 0,
            Refusal::Room(needed) => needed,
            Refusal::File(limit) => limit,
            Refusal::Twist(node) => node,
        }
    }
}
