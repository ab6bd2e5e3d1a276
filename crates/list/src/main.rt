// The list program: the requests on standard input, over the grid in the current folder's sheet.txt. It is held to document 01's
// example: the bulletin's cell, five request lines, and the list of replies.
#![tactic(auto)]

use list_io::Stopped;

fn main(rt: HostRuntime) -> Result<(), Stopped> {
    list_io::run(&rt, b"sheet.txt", &mut rt.stdin())
}
