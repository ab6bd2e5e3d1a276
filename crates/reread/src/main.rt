// Reads the grid text on standard input a thousand times over, so that the time of one reading can be measured (bench/read). Prints
// a dot for each reading that is accepted and an exclamation mark for each that is refused.
#![tactic(auto)]

use input::read_full;
use std::io;

fn main(rt: HostRuntime) -> io::Result<()> {
    let mut buffer = [0; 48_000];
    let n = read_full(&mut rt.stdin(), &mut buffer)?;
    repeat(&rt, &buffer[..n])
}

fn repeat<R: Print>(rt: &R, text: &[u8]) -> io::Result<()> {
    for _ in 0..1000 {
        once(rt, text)?;
    }
    Ok(())
}

fn once<R: Print>(rt: &R, text: &[u8]) -> io::Result<()> {
    let mut lat = [0; 2048];
    let mut lon = [0; 2048];
    match grid_reader::read(text, &mut lat, &mut lon) {
        Ok(_) => rt.write_all(b"."),
        Err(_) => rt.write_all(b"!"),
    }
}
