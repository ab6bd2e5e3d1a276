// The list program's input and output: it opens, reads, calls the libraries and writes. No contract can say what is read or
// written, so its functions promise only that they are safe and end; what they hand on is promised by the libraries.
#![tactic(auto)]

mod ended;
mod serve;
mod sheet;
mod stopped;

use ended::Ended;
use figures::Refusal;
use grid::Grid;
use requests::Reply;
use std::io::Read;
use std::rt::Files;
pub use stopped::Stopped;

// The list of the requests that `requests` reads, over the grid in the file that `sheet` names.
pub fn run<R: Files + Print, I: Read>(
    rt: &R,
    sheet: &[u8],
    requests: &mut I,
) -> Result<(), Stopped> {
    match list(rt, sheet, requests) {
        Ok(()) => Ok(()),
        Err(Ended::Refused(why)) => refuse(rt, why),
        Err(Ended::Stopped(why)) => Err(why),
    }
}

fn list<R: Files + Print, I: Read>(rt: &R, sheet: &[u8], requests: &mut I) -> Result<(), Ended> {
    let mut lat = [0; 2048];
    let mut lon = [0; 2048];
    let header = sheet::read(rt, sheet, &mut lat, &mut lon)?;
    let grid = Grid {
        header,
        lat: &lat,
        lon: &lon,
    };
    serve::serve(rt, requests, grid)
}

// `no=NUMBER,PLACE`
fn refuse<R: Print>(rt: &R, why: Refusal) -> Result<(), Stopped> {
    let mut line = [0; Reply::MAX_TEXT];
    let n = Reply::from(why).put(&mut line);
    send(rt, &line[..n])
}

fn send<R: Print>(rt: &R, text: &[u8]) -> Result<(), Stopped> {
    rt.write_all(text).map_err(Stopped::Output)
}
