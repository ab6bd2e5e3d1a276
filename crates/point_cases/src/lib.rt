// Points run through the checks and the conversions, and pairs of points, for their order: what the programs `points` and `order_points`
// share. The cases stand in a script, one to a line, and each is compared here with what the script says of it. A line is printed for each
// group of cases, and for each case that comes out otherwise.
//
//     group NAME            the cases that follow
//     header S,W,DLAT,DLON,ROWS,COLS
//     lat N,N,..            the latitude shifts of the grid's nodes
//     lon N,N,..            the longitude shifts; `[N,*TIMES]` is a number that comes so many times
//     check ANSWER          the grid is checked, and passes (`ok`) or is refused (`no NUMBER,PLACE`)
//     to83 LAT,LON ANSWER   the point is converted, and answered (`ok LAT,LON,SIGN,SIGN`) or refused (`no NUMBER,PLACE`)
//     to27 LAT,LON ANSWER   the same for the figures, and a point for an answer (`ok LAT,LON`)
//     both LAT,LON ANSWER   as `to83`, and the answer taken back is the point
//     northward LAT,LON LAT,LON ANSWER
//                           both points are converted and their order along a meridian compared: it was kept (`ok 1`), or they have none
//                           (`ok 0`), or they are refused (`no NUMBER,PLACE`)
//     eastward LAT,LON LAT,LON ANSWER
//                           the same along a parallel
//
// Empty lines and lines that start with `#` are passed over.
#![tactic(auto)]

mod call;
mod points;
mod reading;

use points::Points;
use script::cases::run;
use std::io;
use std::io::Read;

// Runs the script that `input` reads, and prints what it came to.
pub fn run_script<R: Print, I: Read>(rt: &R, input: &mut I) -> io::Result<()> {
    run(rt, input, &mut Points::new())?;
    Ok(())
}
