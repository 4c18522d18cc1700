ghost use Rattle.std.specs.Prelude.{◌≡◌, ◌+◌, ◌^◌, ◌<◌, length, slice_get, Some, IsUtf8};
ghost use Rattle.flow_syntax.specs.Lexing.{octal_at, escape_at, part_at, quoted_kind, IsStep};

use super::refusal::{LexFaultKind, LexRefusal};
use flow_term::{List, Text};
use quoted_text::{octal_byte, short_escape};
use std::alloc::Global;

/// What a backslash and the bytes behind it stand for, and how many bytes that are, the backslash included.
fn escape_at(behind: &[u8]) -> Option<(u8, usize)>
    ensures { result ≡ escape_at behind.now }
{
    let first = behind.first()?;
    if let Some(byte) = short_escape(*first) {
        return Some((byte, 2));
    }
    octal_at(behind)
}

/// What a backslash and three octal digits behind it stand for, and how many bytes that are.
fn octal_at(behind: &[u8]) -> Option<(u8, usize)>
    ensures { result ≡ octal_at behind.now }
{
    match behind {
        [high, middle, low, ..] => Some((octal_byte(*high, *middle, *low)?, 4)),
        _ => None,
    }
}

/// The byte that the first piece of quoted bytes stands for, and how many bytes the piece has.
///
/// There is none at a quote, at a backslash that begins no escape, and at the end.
fn part_at(bytes: &[u8]) -> Option<(u8, usize)>
    ensures { result ≡ part_at bytes.now }
{
    match bytes {
        [] | [b'"', ..] => None,
        [b'\\', behind @ ..] => escape_at(behind),
        [byte, ..] => Some((*byte, 1)),
    }
}

/// What the quoted text that the bytes begin with stands for, and how many bytes it has with its quotes.
///
/// The place is that of its opening quote.
pub fn read_quoted(alloc: Global, place: u64, bytes: &[u8]) -> Result<(Text, usize), LexRefusal>
    requires utf8 { IsUtf8 bytes.now }
    requires opens { slice_get bytes.now 0 ≡ Some 34 }
    requires within { place + length bytes.now < 2 ^ 64 }
    ensures { IsStep place bytes.now quoted_kind result }
{
    let mut value = List::new(alloc);
    let mut at = 1;
    while let Some((byte, len)) = part_at(&bytes[at..]) {
        value.push(byte)?;
        at += len;
    }
    if at == bytes.len() {
        return Err(LexRefusal::at(place, LexFaultKind::Unclosed));
    }
    if bytes[at] != b'"' {
        return Err(LexRefusal::at(place + at as u64, LexFaultKind::BadEscape));
    }
    let Some(text) = Text::from_utf8(value) else {
        unreachable!()
    };
    Ok((text, at + 1))
}
