//! What bytes begin with.
ghost use Rattle.std.specs.Prelude.{◌≡◌, ◌+◌, ◌<◌, ◌≤◌, IfOk, length, drop};
ghost use Rattle.value_text.specs.inner.Reading.{Gives, begins_with, behind, is_token_byte, next_part, text_of, token_len, token_of};

use crate::refusal::ValueRefusal;
use flow_term::{List, Text};
use std::alloc::Global;

/// What was read, and the bytes behind it.
pub type Reading<'a, T> = Result<(T, &'a [u8]), ValueRefusal>;

pub fn begins_with(bytes: &[u8], byte: u8) -> bool
    ensures { result ≡ begins_with byte bytes.now }
{
    match bytes {
        [first, ..] => *first == byte,
        [] => false,
    }
}

/// What stands behind the text with which the bytes are to begin.
pub fn behind<'a>(bytes: &'a [u8], text: &[u8]) -> Result<&'a [u8], ValueRefusal>
    ensures read { Gives (λ x. x.now) result (behind text.now bytes.now) }
    ensures shorter { IfOk result (λ rest. length rest.now + length text.now ≤ length bytes.now) }
{
    match bytes.strip_prefix(text) {
        Some(rest) => Ok(rest),
        None => Err(ValueRefusal::Form),
    }
}

/// What stands behind a thing in a list up to the closing byte: that byte, or the next thing behind a comma and a blank.
pub fn next_part(bytes: &[u8], closing: u8) -> Result<&[u8], ValueRefusal>
    ensures read { Gives (λ x. x.now) result (next_part closing bytes.now) }
    ensures shorter { IfOk result (λ rest. length rest.now ≤ length bytes.now) }
{
    if begins_with(bytes, closing) {
        return Ok(bytes);
    }
    let rest = behind(bytes, b", ".as_slice())?;
    if begins_with(rest, closing) {
        return Err(ValueRefusal::Form);
    }
    Ok(rest)
}

/// What stands behind the first byte.
pub fn behind_first(bytes: &[u8]) -> &[u8]
    requires { 0 < length bytes.now }
    ensures { result.now ≡ drop 1 bytes.now }
{
    &bytes[1..]
}

fn is_token_byte(byte: u8) -> bool
    ensures { result ≡ is_token_byte byte }
{
    byte.is_ascii_alphanumeric() || byte == b'_' || byte == b'/' || byte == b'-'
}

fn token_len(bytes: &[u8]) -> usize
    ensures len { result ≡ token_len bytes.now }
    ensures within { result ≤ length bytes.now }
{
    bytes
        .iter()
        .take_while(|byte| is_token_byte(**byte))
        .count()
}

/// The longest front of letters, digits, `_`, `/` and `-`, which is to be one byte or more.
pub fn read_token(bytes: &[u8]) -> Reading<'_, &[u8]>
    ensures read { Gives (λ x. (x.0.now, x.1.now)) result (token_of bytes.now) }
    ensures shorter { IfOk result (λ x. length x.1.now < length bytes.now) }
{
    let len = token_len(bytes);
    if len == 0 {
        return Err(ValueRefusal::Form);
    }
    Ok((&bytes[..len], &bytes[len..]))
}

/// The text of these bytes, which are to be UTF-8.
pub fn text_of(alloc: Global, bytes: &[u8]) -> Result<Text, ValueRefusal>
    ensures { Gives (λ text. text) result (text_of bytes.now) }
{
    let Ok(text) = str::from_utf8(bytes) else {
        return Err(ValueRefusal::Form);
    };
    Ok(Text::from_string(String::from_str(alloc, text)?))
}

/// The text that these bytes are, which are to be UTF-8.
pub fn made_text(bytes: List<u8>) -> Result<Text, ValueRefusal>
    ensures { Gives (λ text. text) result (text_of bytes) }
{
    match Text::from_utf8(bytes) {
        Some(text) => Ok(text),
        None => Err(ValueRefusal::Form),
    }
}
