//! What a backslash and the bytes behind it stand for.
ghost use Rattle.std.specs.Prelude.{◌≡◌};
ghost use Rattle.quoted_text.specs.Escapes.{is_octal, octal_byte, short_escape};

/// What a byte behind a backslash stands for by itself: `"` and `\` for themselves, and `n`, `t` and `r` for line feed, tab and
/// carriage return.
pub fn short_escape(byte: u8) -> Option<u8>
    ensures { result ≡ short_escape byte }
{
    match byte {
        b'"' => Some(b'"'),
        b'\\' => Some(b'\\'),
        b'n' => Some(b'\n'),
        b't' => Some(b'\t'),
        b'r' => Some(b'\r'),
        _ => None,
    }
}

/// Whether the byte is a digit from `0` to `7`.
pub fn is_octal(byte: u8) -> bool
    ensures { result ≡ is_octal byte }
{
    b'0' <= byte && byte <= b'7'
}

/// The byte that three octal digits stand for, if they are digits and it is one of ASCII.
pub fn octal_byte(high: u8, middle: u8, low: u8) -> Option<u8>
    ensures { result ≡ octal_byte high middle low }
{
    match (high, middle, low) {
        (b'0'..=b'1', b'0'..=b'7', b'0'..=b'7') => {
            Some(((high - b'0') * 8 + (middle - b'0')) * 8 + (low - b'0'))
        }
        _ => None,
    }
}
