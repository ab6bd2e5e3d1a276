// The run of a script over its lines.
use super::call::Call;
use super::reading::{Shifts, header_of, numbers, read_shifts};
use grid::{Grid, Header};
use script::cases::{Case, Cases};
use script::cursor::Cursor;
use script::outcome::{Outcome, Refused};
use script::text::{Text, expand};

// The grid that the next cases are over.
#[derive(Drop)]
pub(crate) struct Points {
    header: Header,
    lat: Shifts,
    lon: Shifts,
    // The numbers of the line under way, written out. A room is kept from line to line, since to make one takes longer than a line.
    text: Text,
}

impl Points {
    pub(crate) fn new() -> Points {
        Points {
            header: header_of([0; 6]),
            lat: Shifts::new(),
            lon: Shifts::new(),
            text: Text::new(),
        }
    }

    // An answer is `ok`, with numbers or none, or `no NUMBER,PLACE`. A line without one is wrong, whatever its call comes to.
    fn case(&self, line: &[u8]) -> Case {
        let mut line = Cursor::new(line);
        let call = Call::read(&mut line);
        let words = line.rest.get(3..).unwrap_or_default();
        match line.rest.first() {
            Some(b'o') => Case {
                came: self.outcome(call, numbers(words)),
                wanted: None,
            },
            Some(b'n') => Case {
                came: self.outcome(call, [0; 4]),
                wanted: Refused::read(&mut Cursor::new(words)),
            },
            _ => Case {
                came: Outcome {
                    same: false,
                    ..self.outcome(call, [0; 4])
                },
                wanted: None,
            },
        }
    }

    // What a call comes to, where these numbers should be its answer.
    fn outcome(&self, call: Option<Call>, numbers: [i64; 4]) -> Outcome {
        match call {
            Some(call) => Outcome::from(call.answers(self.grid(), numbers)),
            None => Outcome::answered(false),
        }
    }

    fn write_out(&mut self, words: &[u8]) {
        self.text.clear();
        expand(words, &mut self.text);
    }

    fn grid(&self) -> Grid<'_> {
        Grid {
            header: self.header,
            lat: &self.lat,
            lon: &self.lon,
        }
    }
}

impl Cases for Points {
    fn line(&mut self, line: &[u8]) -> Option<Case> {
        match line {
            [b'h', ..] => {
                self.write_out(line.get(7..).unwrap_or_default());
                self.header = header_of(numbers(&self.text));
            }
            [b'l', b'a', ..] => {
                self.write_out(line.get(4..).unwrap_or_default());
                read_shifts(&self.text, &mut self.lat);
            }
            [b'l', ..] => {
                self.write_out(line.get(4..).unwrap_or_default());
                read_shifts(&self.text, &mut self.lon);
            }
            _ => return Some(self.case(line)),
        }
        None
    }
}
