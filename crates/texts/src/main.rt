// Texts read as document 01 says: accepted ones, and damaged ones with the number and place of their refusal. The cases stand in a
// script, the file `stdin`, one to a line, and each is compared here with what the script says of it. A line is printed for each
// group of cases, and for each case that comes out otherwise.
//
//     group NAME            the cases that follow
//     sheet TEXT            the text that they start from
//     room LAT,LON          the lengths of the node slices that they lend
//     no NUMBER,PLACE EDIT  a text that is refused so, with both slices left as they were
//     ok NUMBERS EDIT       a text that is accepted: the header's six numbers, then each node's two; read and written again it is the same, and the elements behind them stay
//
// The edit `OLD>NEW` puts NEW for the first OLD of the sheet, and after `OLD|NEW` the text ends there. In a text `\n`, `\r`, `\t`,
// `\0` and `\f` are a newline, a carriage return, a tab, a 0 and a 255, and `[PIECE*TIMES]` is a piece that comes so many times.
// Empty lines and lines that start with `#` are passed over.
#![tactic(auto)]

mod again;
mod edits;
mod lent;
mod reading;
mod texts;

use script::cases::run;
use std::io;
use texts::Texts;

fn main(rt: HostRuntime) -> io::Result<()> {
    run(&rt, &mut rt.stdin(), &mut Texts::new())?;
    Ok(())
}
