// Why a list ended before its totals.
use std::error::Error;
use std::{fmt, io};

#[derive(Drop)]
pub enum Stopped {
    // A read of the requests failed.
    Input(io::Error),
    // A write to standard output failed.
    Output(io::Error),
}

impl fmt::Display for Stopped {
    fn fmt<W: fmt::Write>(&self, f: &mut fmt::Formatter<W>) -> fmt::Result {
        match self {
            Stopped::Input(e) => write!(f, "standard input: {e}"),
            Stopped::Output(e) => write!(f, "standard output: {e}"),
        }
    }
}

// The same words, since a `main` that answers it has them said so.
impl fmt::Debug for Stopped {
    fn fmt<W: fmt::Write>(&self, f: &mut fmt::Formatter<W>) -> fmt::Result {
        write!(f, "{self}")
    }
}

impl Error for Stopped {}
