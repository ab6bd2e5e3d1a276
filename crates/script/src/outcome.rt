// What a case came to, beside what the script says of it.
ghost use Rattle.std.specs.Prelude.{◌≡◌, ◌-◌, ◌≤◌, ◌↔◌, length, IsTrue, Some, None};
ghost use Rattle.script.specs.Outcome.{refused_by, outcome_of, Agrees};
ghost use Rattle.script.specs.Reading.{LeftOf};

use super::cursor::Cursor;
use figures::Refusal;
use std::fmt;

// A refusal as a script has it: `NUMBER,PLACE`.
#[derive(Clone, Copy, Debug, PartialEq, Eq)]
pub struct Refused {
    pub number: usize,
    pub place: usize,
}

impl Refused {
    // `0,0` stands for no refusal.
    pub fn read(text: &mut Cursor) -> Option<Refused>
        ensures shorter { length text.new.rest.now ≤ length text.old.rest.now - 1 }
        ensures left { LeftOf text.old.rest.now text.new.rest.now }
    {
        match text.pair() {
            (0, 0) => None,
            (number, place) => Some(Refused { number, place }),
        }
    }
}

impl From<Refusal> for Refused {
    ghost from_gives = { λ why r. r ≡ refused_by why };

    fn from(why: Refusal) -> Refused {
        Refused {
            number: why.number(),
            place: why.place(),
        }
    }
}

// The refusal, if there was one. `same` says whether everything else, as an answer, is as it should be.
#[derive(Clone, Copy)]
pub struct Outcome {
    pub refusal: Option<Refused>,
    pub same: bool,
}

impl Outcome {
    pub fn refused(why: Refusal, same: bool) -> Outcome
        ensures refusal { result.refusal ≡ Some (refused_by why) }
        ensures same { result.same ≡ same }
    {
        Outcome {
            refusal: Some(Refused::from(why)),
            same,
        }
    }

    pub fn answered(same: bool) -> Outcome
        ensures refusal { result.refusal ≡ None }
        ensures same { result.same ≡ same }
    {
        Outcome {
            refusal: None,
            same,
        }
    }

    // Whether a case came to this refusal, or to none.
    pub fn is(self, wanted: Option<Refused>) -> bool
        ensures { IsTrue result ↔ Agrees self wanted }
    {
        self.same && self.refusal == wanted
    }
}

// Of an answer it is known whether it is as it should be.
impl From<Result<bool, Refusal>> for Outcome {
    ghost from_gives = { λ answer came. came ≡ outcome_of answer };

    fn from(answer: Result<bool, Refusal>) -> Outcome {
        match answer {
            Ok(same) => Outcome::answered(same),
            Err(why) => Outcome::refused(why, true),
        }
    }
}

// As a script has it.
impl fmt::Display for Outcome {
    fn fmt<W: fmt::Write>(&self, f: &mut fmt::Formatter<W>) -> fmt::Result {
        let (number, place) = self.refusal.map_or((0, 0), |why| (why.number, why.place));
        write!(f, "{number},{place}")
    }
}
