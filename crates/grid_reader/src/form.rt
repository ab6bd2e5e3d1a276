// The form of a grid's text.
ghost use Rattle.std.specs.Prelude.{◌≡◌};
ghost use Rattle.grid_reader.specs.Scan.{form_at, line_at};

// A `#` stands for a number. The node line comes once for each node.
const FORM: [u8; WHOLE] =
    *b"from=NAD27\nto=NAD83\nsouth=#\nwest=#\ndlat=#\ndlon=#\nrows=#\ncols=#\nnode=#,#\nend=#\n";

// Places of the form: its numbers, the start of the node line and of the end line, and its end.
pub(crate) const SOUTH: usize = 26;

pub(crate) const WEST: usize = SOUTH + 7;

pub(crate) const DLAT: usize = WEST + 7;

pub(crate) const DLON: usize = DLAT + 7;

pub(crate) const ROWS: usize = DLON + 7;

pub(crate) const COLS: usize = ROWS + 7;

pub(crate) const NODE_LINE: usize = COLS + 2;

pub(crate) const LAT: usize = NODE_LINE + 5;

pub(crate) const LON: usize = LAT + 2;

pub(crate) const END_LINE: usize = LON + 2;

pub(crate) const COUNT: usize = END_LINE + 4;

pub(crate) const WHOLE: usize = COUNT + 2;

// The byte at a place, or 0 behind the end.
#[tactic(auto, unfolding(crate::specs::Scan::form))]
pub(crate) fn form_at(place: usize) -> u8
    ensures { result ≡ form_at place }
{
    slices::at(&FORM, place, 0)
}

// The line of a place, where `node` node lines are behind the first.
pub(crate) fn line_at(place: usize, node: u16) -> usize
    ensures { result ≡ line_at place node }
{
    let ended = FORM
        .iter()
        .take(place)
        .filter(|byte| **byte == b'\n')
        .count();
    1 + ended + node as usize
}
