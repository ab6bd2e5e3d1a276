// The points to try of document 01 and the misreadings that it names, run through the checks and the conversions. The cases stand
// in a script, the file `stdin`, one to a line (crate `point_cases`).
#![tactic(auto)]

use std::io;

fn main(rt: HostRuntime) -> io::Result<()> {
    point_cases::run_script(&rt, &mut rt.stdin())
}
