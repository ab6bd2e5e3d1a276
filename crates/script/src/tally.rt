// The count of cases.
ghost use Rattle.std.specs.Prelude.{◌≡◌};
ghost use Rattle.script.specs.Tally.{one_more, fresh, counted_in};

use std::fmt;

#[derive(Clone, Copy)]
pub struct Tally {
    pub cases: u64,
    pub wrong: u64,
}

impl Tally {
    pub(crate) fn new() -> Tally
        ensures { result ≡ fresh }
    {
        Tally { cases: 0, wrong: 0 }
    }

    pub(crate) fn count(&mut self, right: bool)
        ensures { self.new ≡ counted_in right self.old }
    {
        self.cases = one_more(self.cases);
        if !right {
            self.wrong = one_more(self.wrong);
        }
    }
}

impl fmt::Display for Tally {
    fn fmt<W: fmt::Write>(&self, f: &mut fmt::Formatter<W>) -> fmt::Result {
        write!(f, "cases={} wrong={}", self.cases, self.wrong)
    }
}

// The count stops far above the number of cases, so that it cannot overflow.
fn one_more(n: u64) -> u64
    ensures { result ≡ one_more n }
{
    n.saturating_add(1).min(1_000_000)
}
