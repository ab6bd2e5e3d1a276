// A text that is read from its front.
ghost use Rattle.std.specs.Prelude.{◌≡◌, ◌-◌, ◌==◌, ◌≤◌, length};
ghost use Rattle.std.specs.Iterator.{YieldsFirst, item_count};
ghost use Rattle.std.specs.List.{position, before_first, after_first};
ghost use Rattle.script.specs.Reading.{LeftOf};

#[derive(Clone, Copy)]
pub struct Cursor<'a> {
    // What was not read yet.
    pub rest: &'a [u8],
}

impl<'a> Cursor<'a> {
    pub fn new(text: &'a [u8]) -> Cursor<'a>
        ensures { result.rest.now ≡ text.now }
    {
        Cursor { rest: text }
    }

    // The bytes up to the first `end`, which is passed over too.
    pub fn word(&mut self, end: u8) -> &'a [u8]
        ensures word { result.now ≡ before_first (λ byte. byte == end) self.old.rest.now }
        ensures rest { self.new.rest.now ≡ after_first (λ byte. byte == end) self.old.rest.now }
    {
        let text = self.rest;
        let length = place_of(text, end).unwrap_or(text.len());
        self.rest = text.get(length + 1..).unwrap_or_default();
        &text[..length]
    }

    // The number that the digits at the front are, or 0 where there are none. The byte behind them is passed over. Numbers have at most
    // nineteen digits.
    pub fn unsigned(&mut self) -> usize
        ensures shorter { length self.new.rest.now ≤ length self.old.rest.now - 1 }
        ensures left { LeftOf self.old.rest.now self.new.rest.now }
    {
        let mut value = 0;
        while let Some(digit @ b'0'..=b'9') = self.next() {
            value = value % 1_000_000_000_000_000_000 * 10 + usize::from(digit - b'0');
        }
        value
    }

    // Two numbers with a byte between.
    pub fn pair(&mut self) -> (usize, usize)
        ensures shorter { length self.new.rest.now ≤ length self.old.rest.now - 1 }
        ensures left { LeftOf self.old.rest.now self.new.rest.now }
    {
        let first = self.unsigned();
        (first, self.unsigned())
    }

    // The same for a number that may have a minus, from the least `i64` to the greatest. One beyond them counts as the nearer of the two.
    pub fn signed(&mut self) -> i64
        ensures shorter { length self.new.rest.now ≤ length self.old.rest.now - 1 }
        ensures left { LeftOf self.old.rest.now self.new.rest.now }
    {
        match self.rest.strip_prefix(b"-") {
            Some(rest) => {
                self.rest = rest;
                i64::try_from(self.unsigned()).map_or(i64::MIN, |size| -size)
            }
            None => i64::try_from(self.unsigned()).unwrap_or(i64::MAX),
        }
    }
}

// Its bytes, one by one.
impl<'a> Iterator for Cursor<'a> {
    type Item = u8;

    ghost next_gives = { YieldsFirst (λ s. s.rest.now) };

    ghost remaining = { item_count (λ s. s.rest.now) };

    fn next(&mut self) -> Option<u8> {
        let (first, rest) = self.rest.split_first()?;
        self.rest = rest;
        Some(*first)
    }
}

// The first place of a byte.
fn place_of(text: &[u8], byte: u8) -> Option<usize>
    ensures { result ≡ position (λ b. b == byte) text.now }
{
    text.iter().position(|b| *b == byte)
}
