// The list program where its example does not lead. Each argument is a folder with request lines in requests.txt, and the grid
// in sheet.txt. For each its name is printed, and then what the list program prints there.
//
//     empty_input         no request lines: the number of nodes, and totals of 0
//     ties                shifts halfway between two whole numbers, each way from zero: the even one is answered, and taken back
//     meridian            a grid from 179 E to 179 W: points on either side of the 180th meridian and their answers, there and back, and
//                         longitudes outside their range
//     damaged_lines       lines of 64, 65 and 40,000 bytes, the last longer than four blocks, empty lines, a hundred of them in a row,
//                         bytes that are no text, a carriage return, a last line without its newline, and good lines between them
//     refused_sheet       a grid whose header breaks rule 3 (dlat=900001): the refusal alone, whatever was asked
//     steep_sheet         a grid whose longitude shifts are too steep for a way back (90,000 from west to east): the refusal alone
//     twisted_sheet       the Georgia grid, in which a digit and the comma beside it were swapped at node 118: node=7084,2114655 for
//                         node=70842,114655. It is not too steep, and four cells are twisted too far: the refusal alone
//     no_sheet            no sheet.txt
//     folder_for_sheet    sheet.txt is a folder: it opens, and cannot be read
//     longest_sheet       a sheet of 48,000 bytes, the longest file that is read: it is judged, and refused for what follows its end line
//     long_sheet          a sheet of 48,001 bytes, one more than is read
#![tactic(auto)]

use arrayvec::ArrayVec;
use std::env::{Env, FillError};
use std::io::Write;
use std::rt::Files;
use std::{fmt, fs, io, str};

// The longest path.
const PATH: usize = 4_096;

fn main(rt: HostRuntime) -> io::Result<()> {
    for k in 1..usize::MAX {
        let mut name = [0u8; PATH];
        match rt.arg(k, &mut name) {
            Ok(n) => list_in(&rt, &name[..n])?,
            Err(FillError::NotPresent) => break,
            Err(FillError::TooLong) => rt.eprintln("the name of a folder is too long")?,
        }
    }
    Ok(())
}

// A folder whose requests cannot be opened or read is told on standard error, and the next one follows.
fn list_in<R: Files + Print + Eprint>(rt: &R, folder: &[u8]) -> io::Result<()> {
    rt.write_all(folder)?;
    rt.write_all(b"\n")?;
    match open(rt, &join(folder, b"/requests.txt")) {
        Ok(mut file) => list_io::run(rt, &join(folder, b"/sheet.txt"), &mut file).or_else(
            |why| tell(rt, folder, why),
        ),
        Err(why) => tell(rt, folder, why),
    }
}

// A folder's name and then a file's, as far as there is room.
fn join(folder: &[u8], file: &[u8]) -> ArrayVec<u8, PATH> {
    let mut path = ArrayVec::new();
    for part in [folder, file] {
        let _ = path.write(part);
    }
    path
}

// A path has to be text.
fn open<R: Files>(rt: &R, path: &[u8]) -> io::Result<R::File> {
    match str::from_utf8(path) {
        Ok(path) => fs::open(rt, path),
        Err(_) => Err(io::Error::from(io::ErrorKind::InvalidInput)),
    }
}

fn tell<R: Eprint, D: fmt::Display + Drop>(rt: &R, folder: &[u8], why: D) -> io::Result<()> {
    match str::from_utf8(folder) {
        Ok(folder) => rt.eprintln(format_args!("{folder}: {why}")),
        Err(_) => rt.eprintln(format_args!("a folder whose name is no text: {why}")),
    }
}
