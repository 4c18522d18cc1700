ghost use Rattle.std.specs.Prelude.{◌≡◌, length, map, find, option_map, nat_eq};
ghost use Rattle.std.specs.List.{starts_with};
ghost use Rattle.flow_syntax.specs.Tokens.{is_blank, is_name_byte};
ghost use Rattle.flow_syntax.specs.Lexing.{name_len, digits_len, line_len, symbol_len, first_piece};

use crate::words::SYMBOLS;

/// What a text begins with, mostly with its number of bytes.
#[derive(Clone, Copy)]
pub enum Piece {
    /// A blank or a comment.
    Blank(usize),
    /// An identifier or a reserved word.
    Name(usize),
    /// An integer.
    Number(usize),
    /// A symbol.
    Symbol(usize),
    /// A quote.
    Quote,
}

fn is_blank(byte: u8) -> bool
    ensures { result ≡ is_blank byte }
{
    matches!(byte, b' ' | b'\t' | b'\n' | b'\r')
}

/// Whether the byte may stand in a name behind its first one: an ASCII letter, a digit or `_`.
pub fn is_name_byte(byte: u8) -> bool
    ensures { result ≡ is_name_byte byte }
{
    byte.is_ascii_alphanumeric() || byte == b'_'
}

fn name_len(bytes: &[u8]) -> usize
    ensures { result ≡ name_len bytes.now }
{
    bytes.iter().take_while(|byte| is_name_byte(**byte)).count()
}

fn digits_len(bytes: &[u8]) -> usize
    ensures { result ≡ digits_len bytes.now }
{
    bytes
        .iter()
        .take_while(|byte| byte.is_ascii_digit())
        .count()
}

fn line_len(bytes: &[u8]) -> usize
    ensures { result ≡ line_len bytes.now }
{
    bytes.iter().take_while(|byte| **byte != b'\n').count()
}

/// The length of the first of these texts that the bytes begin with.
fn prefix_len_among(texts: &[&str], bytes: &[u8]) -> Option<usize>
    ensures { result ≡ option_map length (find (λ s. starts_with nat_eq bytes.now s) (map (λ s. s.now) texts.now)) }
{
    for text in texts {
        if bytes.starts_with(text.as_bytes()) {
            return Some(text.len());
        }
    }
    None
}

fn symbol_len(bytes: &[u8]) -> Option<usize>
    ensures { result ≡ symbol_len bytes.now }
{
    prefix_len_among(&SYMBOLS, bytes)
}

/// The first piece of a text that isn't empty, if a piece begins it.
pub fn first_piece(bytes: &[u8]) -> Option<Piece>
    ensures { result ≡ first_piece bytes.now }
{
    let first = *bytes.first()?;
    if is_blank(first) {
        return Some(Piece::Blank(1));
    }
    if first.is_ascii_alphabetic() {
        return Some(Piece::Name(name_len(bytes)));
    }
    if first.is_ascii_digit() {
        return Some(Piece::Number(digits_len(bytes)));
    }
    if first == b'"' {
        return Some(Piece::Quote);
    }
    if bytes.starts_with(b"//") {
        return Some(Piece::Blank(line_len(bytes)));
    }
    let len = symbol_len(bytes)?;
    Some(Piece::Symbol(len))
}
