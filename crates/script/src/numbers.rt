// Numbers of a text, with a byte between.
ghost use Rattle.std.specs.Prelude.{◌≡◌, length};
ghost use Rattle.std.specs.Iterator.{at_most};

use super::cursor::Cursor;

// The most shifts of a component: those of a grid with a row too many, 33 rows of 64 nodes.
pub const SHIFTS: usize = 2112;

#[derive(Clone, Copy)]
pub struct Numbers<'a> {
    pub text: Cursor<'a>,
}

impl<'a> Numbers<'a> {
    pub fn new(text: &'a [u8]) -> Numbers<'a>
        ensures { result.text.rest.now ≡ text.now }
    {
        Numbers {
            text: Cursor::new(text),
        }
    }
}

impl<'a> Iterator for Numbers<'a> {
    type Item = i64;

    ghost remaining = { λ s. at_most (length s.text.rest.now) };

    fn next(&mut self) -> Option<i64> {
        if self.text.rest.is_empty() {
            return None;
        }
        Some(self.text.signed())
    }
}
