//! What stands between quotes, and behind it.
ghost use Rattle.std.specs.Prelude.{◌≡◌, ◌<◌, ◌++◌, ◌∷◌, [], reverse, IsUtf8};
ghost use Rattle.aterm_text.specs.Bytes.{class_of};
ghost use Rattle.aterm_text.specs.inner.Machine.{in_quotes, in_escape, in_one_octal, in_two_octals, after_quotes};
ghost use Rattle.aterm_text.specs.inner.Answers.{Answers};

use super::state::{Escape, Last, Reader};
use super::terms::after_body;
use crate::class::{ByteClass, NextByte};
use crate::levels::Levels;
use crate::open::Opener;
use crate::refusal::{TermFaultKind, TermRefusal};
use flow_term::{Kind, List, Text};
use quoted_text::{is_octal, short_escape};
use std::alloc::Global;

/// A byte between quotes.
pub fn in_quotes(
    levels: Levels,
    mut chars: List<u8>,
    at: u64,
    byte: u8,
) -> Result<Reader, TermRefusal>
    requires { byte ≡ 34 → IsUtf8 chars }
    ensures { Answers result (in_quotes (reverse levels.open) levels.begun at chars byte) }
{
    let last = match byte {
        b'"' => Last::Quoted(closed_text(chars)),
        b'\\' => Last::Backslash(Escape { chars, start: at }),
        _ => {
            chars.push(byte)?;
            Last::Inside(chars)
        }
    };
    Ok(Reader { levels, last })
}

/// The text of these bytes.
fn closed_text(chars: List<u8>) -> Text
    requires { IsUtf8 chars }
    ensures { result ≡ chars }
{
    Text::from_utf8(chars).unwrap()
}

/// A byte behind a backslash. An octal value is below 128 exactly where its first digit is `0` or `1`.
pub fn in_escape(levels: Levels, escape: Escape, byte: u8) -> Result<Reader, TermRefusal>
    ensures { Answers result (in_escape (reverse levels.open) levels.begun escape byte) }
{
    if let Some(value) = short_escape(byte) {
        let mut chars = escape.chars;
        chars.push(value)?;
        return Ok(Reader {
            levels,
            last: Last::Inside(chars),
        });
    }
    if byte != b'0' && byte != b'1' {
        return Err(TermRefusal::fault(escape.start, TermFaultKind::BadEscape));
    }
    Ok(Reader {
        levels,
        last: Last::OneOctal(escape, byte - b'0'),
    })
}

/// A byte behind a backslash and one octal digit.
pub fn in_one_octal(
    levels: Levels,
    escape: Escape,
    value: u8,
    byte: u8,
) -> Result<Reader, TermRefusal>
    requires { value < 2 }
    ensures { Answers result (in_one_octal (reverse levels.open) levels.begun escape value byte) }
{
    if !is_octal(byte) {
        return Err(TermRefusal::fault(escape.start, TermFaultKind::BadEscape));
    }
    Ok(Reader {
        levels,
        last: Last::TwoOctals(escape, value * 8 + (byte - b'0')),
    })
}

/// A byte behind a backslash and two octal digits.
pub fn in_two_octals(
    levels: Levels,
    escape: Escape,
    value: u8,
    byte: u8,
) -> Result<Reader, TermRefusal>
    requires { value < 16 }
    ensures { Answers result (in_two_octals (reverse levels.open) levels.begun escape value byte) }
{
    if !is_octal(byte) {
        return Err(TermRefusal::fault(escape.start, TermFaultKind::BadEscape));
    }
    let mut chars = escape.chars;
    chars.push(value * 8 + (byte - b'0'))?;
    Ok(Reader {
        levels,
        last: Last::Inside(chars),
    })
}

/// A byte behind a closing quote.
pub fn after_quotes(
    alloc: Global,
    levels: Levels,
    chars: Text,
    next: NextByte,
) -> Result<Reader, TermRefusal>
    requires { next.class ≡ class_of next.byte }
    ensures { Answers result (after_quotes next.class (reverse levels.open) levels.begun next.at chars next.byte) }
{
    match next.class {
        ByteClass::Blank => Ok(Reader {
            levels,
            last: Last::Quoted(chars),
        }),
        ByteClass::Parenthesis => levels.descend(alloc, Opener::Call(chars)),
        _ => after_body(alloc, levels, Kind::Str(chars), next),
    }
}
