ghost use Rattle.std.specs.Prelude.{◌≡◌, IfOk};
ghost use Rattle.spec_grammar.specs.Parts.{text_of, named, number_of};

use flow_syntax::{Named, Token, TokenKind};
use flow_term::Text;
use std::alloc::{AllocError, Global};

/// What an identifier or a quoted text says; the empty text for a number and at the end.
pub fn text_of(alloc: Global, token: &Token) -> Result<Text, AllocError>
    ensures { IfOk result (λ text. text ≡ text_of token.now) }
{
    match &token.kind {
        TokenKind::Ident(text) => text.duplicate(),
        TokenKind::Quoted(text) => text.duplicate(),
        TokenKind::Word(text) => text.duplicate(),
        TokenKind::Symbol(text) => text.duplicate(),
        TokenKind::Number(_) => Ok(Text::new(alloc)),
        TokenKind::Eof => Ok(Text::new(alloc)),
    }
}

/// The token as a name.
pub fn named(alloc: Global, token: &Token) -> Result<Named, AllocError>
    ensures { IfOk result (λ name. name ≡ named token.now) }
{
    let text = text_of(alloc, token)?;
    Ok(Named {
        text,
        place: token.place,
    })
}

/// The number that a token says; 0 where it says none.
pub fn number_of(token: &Token) -> i64
    ensures { result ≡ number_of token.now }
{
    match &token.kind {
        TokenKind::Number(number) => *number,
        _ => 0,
    }
}
