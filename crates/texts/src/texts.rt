// The run of a script over its lines.
use super::{again, edits, reading};
use script::cases::{Case, Cases};
use script::cursor::Cursor;
use script::outcome::{Outcome, Refused};
use script::text::{Text, expand};

#[derive(Drop)]
pub(crate) struct Texts {
    // What the next cases start from.
    sheet: Text,
    // The text of the case under way, and what it should hold. Rooms are kept from case to case, since to make one takes longer than a case.
    text: Text,
    numbers: Text,
    // The lengths of the slices that are lent.
    lat: usize,
    lon: usize,
}

impl Texts {
    pub(crate) fn new() -> Texts {
        Texts {
            sheet: Text::new(),
            text: Text::new(),
            numbers: Text::new(),
            lat: 0,
            lon: 0,
        }
    }

    fn case(&mut self, line: &[u8]) -> Case {
        let mut words = Cursor::new(line.get(3..).unwrap_or_default());
        let want = words.word(b' ');
        match edits::edit(words.rest, &self.sheet, &mut self.text) {
            Some(()) => self.judge(line, want),
            None => Case {
                came: Outcome::answered(false),
                wanted: None,
            },
        }
    }

    // Reads the text. `want` is how it should be refused, or what it should hold.
    fn judge(&mut self, line: &[u8], want: &[u8]) -> Case {
        self.numbers.clear();
        expand(want, &mut self.numbers);
        let mut came = reading::read(&self.text, &self.numbers, self.lat, self.lon);
        if line.first() == Some(&b'o') {
            came.same = came.same && again::comes_again(&self.text);
            return Case { came, wanted: None };
        }
        let wanted = Refused::read(&mut Cursor::new(want));
        Case { came, wanted }
    }
}

impl Cases for Texts {
    fn line(&mut self, line: &[u8]) -> Option<Case> {
        match line.first() {
            Some(b's') => {
                self.sheet.clear();
                expand(line.get(6..).unwrap_or_default(), &mut self.sheet);
            }
            Some(b'r') => {
                (self.lat, self.lon) = Cursor::new(line.get(5..).unwrap_or_default()).pair();
            }
            _ => return Some(self.case(line)),
        }
        None
    }
}
