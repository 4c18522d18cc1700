//! Numbers, digit by digit.
ghost use Rattle.std.specs.Prelude.{◌≡◌, ◌≤◌};
ghost use Rattle.aterm_text.specs.Numbers.{with_digit, integer_of};

/// The digits so far: whether a `-` stands before them, their value, and the offset of the number's first byte.
#[derive(Clone, Copy)]
pub struct Number {
    pub negative: bool,
    /// The value, where it is below 10 * 2^60, and else 2^64 - 1.
    pub magnitude: u64,
    pub start: u64,
}

/// Values below this stay exact with one more digit.
const EXACT_LIMIT: u64 = 1 << 60;

impl Number {
    /// The number with one more digit at its end.
    pub fn with_digit(self, byte: u8) -> Number
        requires low { 48 ≤ byte }
        requires high { byte ≤ 57 }
        ensures { result ≡ with_digit self byte }
    {
        let magnitude = if self.magnitude < EXACT_LIMIT {
            self.magnitude * 10 + u64::from(byte - b'0')
        } else {
            u64::MAX
        };
        Number {
            negative: self.negative,
            magnitude,
            start: self.start,
        }
    }

    /// The integer, if it is an `i64`.
    pub fn integer(&self) -> Option<i64>
        ensures { result ≡ integer_of self.now }
    {
        if !self.negative {
            return i64::try_from(self.magnitude).ok();
        }
        if self.magnitude == 0 {
            return Some(0);
        }
        match i64::try_from(self.magnitude - 1) {
            Ok(below) => Some(-1 - below),
            Err(_) => None,
        }
    }
}
