// A number read byte by byte.
ghost use Rattle.std.specs.Prelude.{◌≡◌, ◌≤◌};
ghost use Rattle.decimal.specs.Pushing.{none, digit_pushed, pushed, value_of, value_or0};

use super::Number;

impl Number {
    // The largest number of 11 digits.
    pub const MAX: u64 = 99_999_999_999;

    // No byte was read yet.
    pub fn new() -> Number
        ensures { result ≡ none }
    {
        Number {
            negative: false,
            magnitude: None,
        }
    }

    // The number with one byte more, or none at the first byte after which no number can follow. A minus stands before all digits, once.
    #[tactic(auto, unfolding(crate::specs::Pushing::pushed, crate::specs::Pushing::minus_pushed))]
    pub fn push(self, byte: u8) -> Option<Number>
        ensures { result ≡ pushed self byte }
    {
        match byte {
            b'0'..=b'9' => self.push_digit((byte - b'0') as u64),
            b'-' if self == Number::new() => Some(Number {
                negative: true,
                ..self
            }),
            _ => None,
        }
    }

    // After a leading 0 and after 11 digits no digit follows, and no 0 after a minus.
    #[tactic(auto, unfolding(crate::specs::Pushing::digit_pushed))]
    fn push_digit(self, digit: u64) -> Option<Number>
        requires { digit ≤ 9 }
        ensures { result ≡ digit_pushed self digit }
    {
        let magnitude = match self.magnitude {
            None if self.negative && digit == 0 => return None,
            None => digit,
            Some(0) => return None,
            Some(m) if Number::MAX / 10 < m => return None,
            Some(m) => m * 10 + digit,
        };
        Some(Number {
            magnitude: Some(magnitude),
            ..self
        })
    }

    // The integer that was read, once there is a digit. No text has a magnitude beyond 11 digits.
    #[tactic(auto, unfolding(crate::specs::Pushing::value_of))]
    pub fn finish(self) -> Option<i64>
        ensures { result ≡ value_of self }
    {
        match self.magnitude {
            Some(m) if m <= Number::MAX && self.negative => Some(-(m as i64)),
            Some(m) if m <= Number::MAX => Some(m as i64),
            _ => None,
        }
    }

    // The same, or 0 where there is none.
    pub fn value(self) -> i64
        ensures { result ≡ value_or0 self }
    {
        self.finish().unwrap_or(0)
    }
}
