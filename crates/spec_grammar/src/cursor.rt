ghost use Rattle.std.specs.Prelude.{◌≡◌, ◌≤◌, ◌∷◌, [], map, IfOk};
ghost use Rattle.spec_grammar.specs.Gives.{Gives, IsTooDeep};
ghost use Rattle.grammar_theory.specs.Reading.{read_one, starts_with};
ghost use Rattle.grammar_theory.specs.Texts.{member};
ghost use Rattle.spec_grammar.specs.Kinds.{code_of, kind_of};

use crate::Kind;
use flow_syntax::Token;
use flow_term::List;
use grammar_theory::Cause;
use std::alloc::{AllocError, Global};

/// How deep a token may be nested.
pub const LIMIT: u64 = 256;

/// Why there is no value: a fault, with the tokens from it on, or want of memory.
#[derive(Drop)]
pub enum Refusal<'a> {
    /// The fault, with the tokens from it on.
    Fault(Cause, &'a [Token]),
    /// Memory ran out.
    NoMemory,
}

impl From<AllocError> for Refusal<'_> {
    ghost use Rattle.spec_grammar.specs.declared.cursor.Refusal.TheVariants.{NoMemory};

    ghost from_gives = { λ _ e. e ≡ NoMemory };

    fn from(_error: AllocError) -> Self {
        Refusal::NoMemory
    }
}

/// The tokens that are still to be read, each with its kind.
#[derive(Clone, Copy)]
pub struct Cursor<'a> {
    /// The tokens, the next one first.
    pub tokens: &'a [Token],
    kinds: &'a [Kind],
    ghost matched: { map code_of kinds.now ≡ map kind_of tokens.now },
}

/// What was read, and the tokens behind it.
pub type Read<'a, T> = Result<(T, Cursor<'a>), Refusal<'a>>;

/// The kind of each token.
pub fn kinds_of(alloc: Global, tokens: &[Token]) -> Result<List<Kind>, AllocError>
    ensures { IfOk result (λ kinds. map code_of kinds ≡ map kind_of tokens.now) }
{
    let mut kinds = List::new(alloc);
    for token in tokens {
        kinds.push(Kind::of(&token.kind))?;
    }
    Ok(kinds)
}

fn is_one_of(kind: Kind, kinds: &[Kind]) -> bool
    ensures { result ≡ member (code_of kind) (map code_of kinds.now) }
{
    match kinds {
        [first, rest @ ..] => kind.is(*first) || is_one_of(kind, rest),
        [] => false,
    }
}

impl<'a> Cursor<'a> {
    /// The cursor at the first of these tokens. `kinds` are their kinds.
    pub fn new(tokens: &'a [Token], kinds: &'a [Kind]) -> Cursor<'a>
        requires { map code_of kinds.now ≡ map kind_of tokens.now }
        ensures { result.tokens.now ≡ tokens.now }
    {
        Cursor { tokens, kinds }
    }

    /// Whether the first token is of this kind.
    pub fn begins(self, kind: Kind) -> bool
        ensures { result ≡ starts_with kind_of (code_of kind ∷ []) self.entry.tokens.now }
    {
        match self.kinds {
            [first, ..] => first.is(kind),
            [] => false,
        }
    }

    /// Whether the first token is of one of these kinds.
    pub fn begins_any(self, kinds: &[Kind]) -> bool
        ensures { result ≡ starts_with kind_of (map code_of kinds.now) self.entry.tokens.now }
    {
        match self.kinds {
            [first, ..] => is_one_of(*first, kinds),
            [] => false,
        }
    }

    /// The first token, which is to be of one of these kinds, with its kind.
    pub fn any_token(
        self,
        kinds: &[Kind],
        nesting: u64,
    ) -> Result<(&'a Token, Kind, Cursor<'a>), Refusal<'a>>
        ensures reads { Gives (λ x. (x.0.now, x.2.tokens.now)) result (read_one kind_of 256 nesting (map code_of kinds.now) self.entry.tokens.now) }
        ensures kind { IfOk result (λ x. kind_of x.0.now ≡ code_of x.1) }
        ensures fits { IfOk result (λ _. nesting ≤ 256) }
    {
        let ([token, tokens @ ..], [kind, behind @ ..]) = (self.tokens, self.kinds) else {
            return Err(Refusal::Fault(Cause::Unexpected, self.tokens));
        };
        if !is_one_of(*kind, kinds) {
            return Err(Refusal::Fault(Cause::Unexpected, self.tokens));
        }
        if nesting > LIMIT {
            return Err(Refusal::Fault(Cause::TooDeep, self.tokens));
        }
        let rest = Cursor {
            tokens,
            kinds: behind,
        };
        Ok((token, *kind, rest))
    }

    /// The first token, which is to be of this kind.
    pub fn token(self, kind: Kind, nesting: u64) -> Read<'a, &'a Token>
        ensures reads { Gives (λ x. (x.0.now, x.1.tokens.now)) result (read_one kind_of 256 nesting (code_of kind ∷ []) self.entry.tokens.now) }
        ensures fits { IfOk result (λ _. nesting ≤ 256) }
    {
        let (token, _, rest) = self.any_token(&[kind], nesting)?;
        Ok((token, rest))
    }

    /// What is answered where each token is nested too deep.
    pub fn too_deep(self, kinds: &[Kind]) -> Refusal<'a>
        ensures { IsTooDeep result self.entry.tokens.now (map code_of kinds.now) }
    {
        if self.begins_any(kinds) {
            Refusal::Fault(Cause::TooDeep, self.tokens)
        } else {
            Refusal::Fault(Cause::Unexpected, self.tokens)
        }
    }
}
