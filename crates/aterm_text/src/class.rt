ghost use Rattle.std.specs.Prelude.{◌≡◌};
ghost use Rattle.aterm_text.specs.Bytes.{begins_term, class_of, is_in_symbol, misplaced};
ghost use Rattle.aterm_text.specs.Written.{is_letter_class};

use crate::refusal::TermFaultKind;

/// What a byte is outside of quotes.
#[derive(Clone, Copy)]
pub enum ByteClass {
    /// An ASCII letter or `_`.
    Letter,
    Digit,
    /// `-`, with which a number may begin, and which may stand in a symbol behind its first byte.
    Minus,
    /// One of `+`, `*` and `$`, which may stand in a symbol behind its first byte.
    Sign,
    /// Space, tab, line feed or carriage return.
    Blank,
    Quote,
    Comma,
    /// `(`.
    Parenthesis,
    /// `[`.
    Bracket,
    /// `{`.
    Brace,
    /// `)`, `]` or `}`.
    Closing,
    /// `!`.
    Exclamation,
    /// `<`.
    Less,
    Other,
}

impl ByteClass {
    #[tactic(auto, using(std::proofs::lemmas::Bool::Decides::nat_tests), unfolding(crate::specs::Bytes::class_of))]
    pub fn of(byte: u8) -> ByteClass
        ensures { result ≡ class_of byte }
    {
        match byte {
            b'A'..=b'Z' | b'a'..=b'z' | b'_' => ByteClass::Letter,
            b'0'..=b'9' => ByteClass::Digit,
            b'-' => ByteClass::Minus,
            b'+' | b'*' | b'$' => ByteClass::Sign,
            b' ' | b'\t' | b'\n' | b'\r' => ByteClass::Blank,
            b'"' => ByteClass::Quote,
            b',' => ByteClass::Comma,
            b'(' => ByteClass::Parenthesis,
            b'[' => ByteClass::Bracket,
            b'{' => ByteClass::Brace,
            b')' | b']' | b'}' => ByteClass::Closing,
            b'!' => ByteClass::Exclamation,
            b'<' => ByteClass::Less,
            _ => ByteClass::Other,
        }
    }

    pub fn is_letter(self) -> bool
        ensures { result ≡ is_letter_class self }
    {
        matches!(self, ByteClass::Letter)
    }

    /// Whether a byte of this class may stand in a symbol behind its first byte.
    pub fn is_in_symbol(self) -> bool
        ensures { result ≡ is_in_symbol self }
    {
        matches!(
            self,
            ByteClass::Letter | ByteClass::Digit | ByteClass::Minus | ByteClass::Sign
        )
    }

    /// Whether a term begins with a byte of this class.
    pub fn begins_term(self) -> bool
        ensures { result ≡ begins_term self }
    {
        matches!(
            self,
            ByteClass::Letter
                | ByteClass::Digit
                | ByteClass::Minus
                | ByteClass::Quote
                | ByteClass::Parenthesis
                | ByteClass::Bracket
        )
    }

    /// The fault of a byte of this class where a term is to begin, and none begins with it.
    pub fn misplaced(self) -> TermFaultKind
        ensures { result ≡ misplaced self }
    {
        match self {
            ByteClass::Exclamation => TermFaultKind::Shared,
            ByteClass::Less => TermFaultKind::Placeholder,
            _ => TermFaultKind::Unexpected,
        }
    }
}

/// The next byte of the text: its offset, and what it is outside of quotes.
#[derive(Clone, Copy)]
pub struct NextByte {
    pub at: u64,
    pub byte: u8,
    pub class: ByteClass,
}

impl NextByte {
    pub fn new(at: u64, byte: u8) -> NextByte
        ensures place { result.at ≡ at }
        ensures byte { result.byte ≡ byte }
        ensures class { result.class ≡ class_of byte }
    {
        NextByte {
            at,
            byte,
            class: ByteClass::of(byte),
        }
    }
}
