//! The one spelling of a byte between quotes.
ghost use Rattle.std.specs.Prelude.{◌≡◌};
ghost use Rattle.quoted_text.specs.Spellings.{byte_text, octal_escape, spelling_text};

/// How a byte is spelled between quotes.
#[derive(Clone, Copy)]
pub enum Spelling {
    /// As it is.
    Plain([u8; 1]),
    /// By a backslash and one byte.
    Short([u8; 2]),
    /// By a backslash and three octal digits.
    Octal([u8; 4]),
}

impl Spelling {
    /// The spelling of the byte between quotes of this kind.
    pub fn of(quote: u8, byte: u8) -> Spelling
        ensures { spelling_text result ≡ byte_text quote byte }
    {
        if byte == quote {
            return Spelling::Short([b'\\', quote]);
        }
        match byte {
            b'\\' => Spelling::Short([b'\\', b'\\']),
            b'\n' => Spelling::Short([b'\\', b'n']),
            b'\t' => Spelling::Short([b'\\', b't']),
            b'\r' => Spelling::Short([b'\\', b'r']),
            0..=31 | 127 => Spelling::Octal(octal_escape(byte)),
            _ => Spelling::Plain([byte]),
        }
    }

    /// Its bytes.
    pub fn as_slice(&self) -> &[u8]
        ensures { result.now ≡ spelling_text self.now }
    {
        match self {
            Spelling::Plain(bytes) => bytes,
            Spelling::Short(bytes) => bytes,
            Spelling::Octal(bytes) => bytes,
        }
    }
}

fn octal_escape(byte: u8) -> [u8; 4]
    ensures { result ≡ octal_escape byte }
{
    [
        b'\\',
        b'0' + byte / 64,
        b'0' + byte / 8 % 8,
        b'0' + byte % 8,
    ]
}
