// The parts of a grid's text, line by line: each line goes into what remains of the room.
ghost use Rattle.std.specs.Prelude.{[], ◌∷◌};
ghost use Rattle.writing.specs.Writing.{Put, Added};
ghost use Rattle.lines.specs.Text.{line};
ghost use Rattle.grid.specs.Rules.{node_count};
ghost use Rattle.grid.specs.Lent.{lent};
ghost use Rattle.grid_text.specs.Text.{header_text, node_lines, grid_text};

use grid::{CheckedGrid, Header};
use lines::put_line;
use writing::{put_behind, put_text};

pub(crate) fn put_grid(checked: CheckedGrid, room: &mut [u8]) -> usize
    ensures { Put (grid_text (lent checked.entry.grid)) room.old room.new result }
{
    let at = put_header(checked.grid.header, room);
    let end = put_behind(at, room, |rest| put_nodes(checked, rest));
    add_line(b"end=", checked.node_count() as i64, end, room)
}

fn put_header(header: Header, room: &mut [u8]) -> usize
    ensures { Put (header_text header) room.old room.new result }
{
    let at = put_text(b"from=NAD27\nto=NAD83\n", room);
    let at = add_line(b"south=", header.south.0, at, room);
    let at = add_line(b"west=", header.west.0, at, room);
    let at = add_line(b"dlat=", header.dlat, at, room);
    let at = add_line(b"dlon=", header.dlon, at, room);
    let at = add_line(b"rows=", header.rows, at, room);
    add_line(b"cols=", header.cols, at, room)
}

// A line of one number from the place `at` on; what stands before it stays. The answer is the place behind the line.
fn add_line(key: &[u8], x: i64, at: usize, room: &mut [u8]) -> usize
    ensures { Added (line key.now (x ∷ [])) at room.old room.new result }
{
    put_behind(at, room, |rest| put_line(key, &[x], rest))
}

fn put_nodes(checked: CheckedGrid, room: &mut [u8]) -> usize
    ensures { Put (node_lines (lent checked.entry.grid).nodes (node_count checked.entry.grid.header)) room.old room.new result }
{
    let grid = checked.grid;
    let n = checked.node_count();
    let mut at: usize = 0;
    for (lat, lon) in grid.lat[..n].iter().zip(&grid.lon[..n]) {
        at = put_behind(at, room, |rest| put_line(b"node=", &[*lat, *lon], rest));
    }
    at
}
