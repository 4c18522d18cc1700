//! Bytes as tokens.
ghost use Rattle.std.specs.Prelude.{◌≡◌, ℕ, ◌+◌, ◌^◌, ◌<◌, length, List, OnOk, IfOk, ◌++◌, IsUtf8};
ghost use Rattle.std.specs.Str.Parse.{IsNumeral};
ghost use Rattle.flow_syntax.specs.declared.lexer.refusal.LexFaultKind.{LexFaultKind as TheFaultKind};
ghost use Rattle.flow_syntax.specs.declared.token.Token.{Token as TheToken};
ghost use Rattle.flow_syntax.specs.Lexing.{number_of, name_kind, IsStep};
ghost use Rattle.flow_syntax.specs.Accepted.{HasIdentifierTokens};
ghost use Rattle.flow_syntax.specs.Tokens.{tokens_at, TokensFrom, TokenText, HasRisingPlaces, EndsAt};
ghost use Rattle.flow_syntax.specs.TokenFaults.{FaultFrom, LexFaulty, IfFault, IsLexedAs, IsFaultedAs};

mod piece;
mod quoted;
mod refusal;

use crate::token::{Token, TokenKind};
use crate::words::is_reserved;
use flow_term::{List, Text};
pub use piece::is_name_byte;
use piece::{Piece, first_piece};
use quoted::read_quoted;
pub use refusal::{LexFaultKind, LexRefusal};
use std::alloc::{AllocError, Global};

/// The value of digits, if it is an `i64`.
fn number_of(digits: &[u8]) -> Option<i64>
    requires { IsNumeral 10 digits.now }
    ensures { result ≡ number_of digits.now }
{
    let Ok(text) = str::from_utf8(digits) else {
        unreachable!()
    };
    text.parse::<i64>().ok()
}

fn text_of(alloc: Global, bytes: &[u8]) -> Result<Text, AllocError>
    requires { IsUtf8 bytes.now }
    ensures { IfOk result (λ text. text ≡ bytes.now) }
{
    let Ok(text) = str::from_utf8(bytes) else {
        unreachable!()
    };
    Ok(Text::from_string(String::from_str(alloc, text)?))
}

/// A reserved word or an identifier.
fn name_kind(alloc: Global, name: &[u8]) -> Result<TokenKind, AllocError>
    requires { IsUtf8 name.now }
    ensures { IfOk result (λ kind. kind ≡ name_kind name.now) }
{
    let text = text_of(alloc, name)?;
    if is_reserved(text.as_str()) {
        return Ok(TokenKind::Word(text));
    }
    Ok(TokenKind::Ident(text))
}

/// What the bytes begin with at this place: a blank or a comment, or the token that is returned; and its length.
fn read_piece(
    alloc: Global,
    place: u64,
    bytes: &[u8],
) -> Result<(Option<TokenKind>, usize), LexRefusal>
    requires utf8 { IsUtf8 bytes.now }
    requires some { 0 < length bytes.now }
    requires within { place + length bytes.now < 2 ^ 64 }
    ensures { IsStep place bytes.now (λ kind. kind) result }
{
    let Some(piece) = first_piece(bytes) else {
        return Err(LexRefusal::at(place, LexFaultKind::BadCharacter));
    };
    match piece {
        Piece::Blank(len) => Ok((None, len)),
        Piece::Name(len) => Ok((Some(name_kind(alloc, &bytes[..len])?), len)),
        Piece::Number(len) => match number_of(&bytes[..len]) {
            Some(number) => Ok((Some(TokenKind::Number(number)), len)),
            None => Err(LexRefusal::at(place, LexFaultKind::IntRange)),
        },
        Piece::Symbol(len) => Ok((Some(TokenKind::Symbol(text_of(alloc, &bytes[..len])?)), len)),
        Piece::Quote => {
            let (text, len) = read_quoted(alloc, place, bytes)?;
            Ok((Some(TokenKind::Quoted(text)), len))
        }
    }
}

fn push_token(
    tokens: &mut List<Token>,
    place: u64,
    kind: Option<TokenKind>,
) -> Result<(), AllocError>
    ensures { OnOk result (tokens.new ≡ tokens.old ++ tokens_at place kind) }
{
    match kind {
        Some(kind) => tokens.push(Token { place, kind }),
        None => Ok(()),
    }
}

/// The tokens of bytes that are UTF-8.
fn read_tokens(alloc: Global, bytes: &[u8]) -> Result<List<Token>, LexRefusal>
    requires { IsUtf8 bytes.now }
    ensures found { IfOk result (TokensFrom 0 bytes.now) }
    ensures fault { IfFault result (FaultFrom 0 bytes.now) }
{
    let mut tokens = List::new(alloc);
    let mut at = 0;
    while at < bytes.len() {
        let (kind, len) = read_piece(alloc, at as u64, &bytes[at..])?;
        push_token(&mut tokens, at as u64, kind)?;
        at += len;
    }
    push_token(&mut tokens, at as u64, Some(TokenKind::Eof))?;
    Ok(tokens)
}

/// The tokens of a specification's text, and `Eof` at its length. Their places are byte offsets, and rise.
///
/// `Fault` where there are none: the first fault in reading from the left, but `NotUtf8` before all others.
pub fn lex(alloc: Global, bytes: &[u8]) -> Result<List<Token>, LexRefusal>
    ensures found { IfOk result (TokenText bytes.now) }
    ensures only { (tokens : List TheToken) → TokenText bytes.now tokens → IsLexedAs result tokens }
    ensures fault { IfFault result (LexFaulty bytes.now) }
    ensures first { (offset : ℕ) (kind : TheFaultKind) → LexFaulty bytes.now offset kind → IsFaultedAs result offset kind }
    ensures rising { IfOk result HasRisingPlaces }
    ensures last { IfOk result (EndsAt (length bytes.now)) }
    ensures identifiers { IfOk result HasIdentifierTokens }
{
    if let Err(error) = str::from_utf8(bytes) {
        return Err(LexRefusal::at(error.valid_up_to() as u64, LexFaultKind::NotUtf8));
    }
    read_tokens(alloc, bytes)
}
