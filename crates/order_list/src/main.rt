// The list program on a grid as steep as the checks allow, whose shifts fall northward and eastward: the answers of neighbours keep their
// points' order.
#![tactic(auto)]

use list_io::Stopped;

fn main(rt: HostRuntime) -> Result<(), Stopped> {
    list_io::run(&rt, b"sheet.txt", &mut rt.stdin())
}
