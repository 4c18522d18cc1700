//! The public call: a specification or the first fault.
ghost use Rattle.std.specs.Prelude.{◌≡◌, ℕ, List as Sequence, IfOk, map};
ghost use Rattle.flow_parse.specs.Faults.{IfFault, IsFaultAt, IsFaultedAs, IsParsedAs, Tells};
ghost use Rattle.flow_syntax.specs.Accepted.{HasIdentifierTokens, HasIdentifiers, IsWellFormed};
ghost use Rattle.flow_syntax.specs.Tokens.{HasRisingPlaces};
ghost use Rattle.flow_syntax.specs.declared.spec.Spec.{Spec as TheSpec};
ghost use Rattle.grammar_theory.specs.Faults.{IsText};
ghost use Rattle.grammar_theory.specs.declared.Cause.{Cause as TheCause};
ghost use Rattle.spec_grammar.specs.Kinds.{code_of, kind_of};
ghost use Rattle.spec_grammar.specs.Reading.{reads_all};
ghost use Rattle.spec_grammar.specs.Symbols.{Whole};
ghost use Rattle.spec_grammar.specs.Syntax.{nesting_limit, spec_syntax};
ghost use Rattle.spec_grammar.specs.Gives.{GivesAll};

use crate::refusal::{ParseFaultKind, ParseRefusal};
use crate::whole::read_spec;
use flow_syntax::{Spec, Token};
use flow_term::List;
use grammar_theory::Cause;
use spec_grammar::{Cursor, Kind, Refusal, kinds_of};
use std::alloc::Global;

/// The specification that all of the tokens are.
fn read_all<'a>(alloc: Global, tokens: &'a [Token], kinds: &'a [Kind]) -> Result<Spec, Refusal<'a>>
    requires { map code_of kinds.now ≡ map kind_of tokens.now }
    ensures { GivesAll result (reads_all tokens.now) }
{
    let (spec, rest) = read_spec(alloc, Cursor::new(tokens, kinds))?;
    if rest.tokens.is_empty() {
        return Ok(spec);
    }
    Err(Refusal::Fault(Cause::Unexpected, rest.tokens))
}

/// A fault is told by the place of the token at which it stands.
fn told(refusal: Refusal<'_>) -> ParseRefusal
    ensures { Tells result refusal.entry }
{
    let Refusal::Fault(cause, rest) = refusal else {
        return ParseRefusal::NoMemory;
    };
    let place = match rest {
        [first, ..] => first.place,
        [] => 0,
    };
    let kind = match cause {
        Cause::Unexpected => ParseFaultKind::Unexpected,
        Cause::TooDeep => ParseFaultKind::TooDeep,
    };
    ParseRefusal::Fault { place, kind }
}

/// The specification that the tokens are; there is one at most. The grammar is data, in `spec_grammar`.
///
/// `Fault` where there is none in which no token is nested deeper than 256: at the first token that can't go on
/// (`Unexpected`: some specification begins with the tokens before it, and none with it), or that can go on and is nested deeper
/// than 256 (`TooDeep`). Its place is that token's; 0 where the tokens end before a specification does, which tokens that
/// end with `Eof` don't.
///
/// Where the places of the tokens rise, the specification is well formed, and no two of its expressions are equal, places
/// included. Takes time in the number of tokens.
pub fn parse(alloc: Global, tokens: &List<Token>) -> Result<Spec, ParseRefusal>
    ensures found { IfOk result (IsText spec_syntax nesting_limit Whole tokens.now) }
    ensures only { (spec : TheSpec) → IsText spec_syntax nesting_limit Whole tokens.now spec → IsParsedAs result spec }
    ensures fault { IfFault result (IsFaultAt tokens.now) }
    ensures first { (place : ℕ) (cause : TheCause) → IsFaultAt tokens.now place cause → IsFaultedAs result place cause }
    ensures well_formed { HasRisingPlaces tokens.now → IfOk result IsWellFormed }
    ensures identifiers { HasRisingPlaces tokens.now → HasIdentifierTokens tokens.now → IfOk result HasIdentifiers }
{
    let kinds = kinds_of(alloc, tokens.as_slice())?;
    match read_all(alloc, tokens.as_slice(), kinds.as_slice()) {
        Ok(spec) => Ok(spec),
        Err(refusal) => Err(told(refusal)),
    }
}
