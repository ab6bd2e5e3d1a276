// What the programs share that hold their cases as the lines of a script: the run over the lines, numbers and words of a line, texts with
// repeated pieces, what a case came to, and the count of the cases. A group's line is `group NAME`.
#![tactic(auto)]

pub mod cases;
pub mod cursor;
mod groups;
pub mod numbers;
pub mod outcome;
mod tally;
pub mod text;
