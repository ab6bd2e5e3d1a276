// Pairs of points, for their order (document 02, request 10). The cases stand in a script, the file `stdin`, one to a line (crate
// `point_cases`).
#![tactic(auto)]

use std::io;

fn main(rt: HostRuntime) -> io::Result<()> {
    point_cases::run_script(&rt, &mut rt.stdin())
}
