//! The kinds of token with which triggers and patterns begin.
ghost use Rattle.std.specs.Prelude.{◌≡◌, ◌∷◌};
ghost use Rattle.spec_grammar.specs.Choice.{unnamed_patterns};
ghost use Rattle.spec_grammar.specs.declared.kind.Kind.TheVariants as kinds;

use spec_grammar::Kind;

/// The kinds of token with which a trigger begins: those of a pattern, and `prev`.
pub const TRIGGERS: [Kind; 11] = [
    Kind::Prev,
    Kind::Underscore,
    Kind::Identifier,
    Kind::Name,
    Kind::Str,
    Kind::Int,
    Kind::Number,
    Kind::Dash,
    Kind::Quoted,
    Kind::OpenRound,
    Kind::OpenSquare,
];

/// The kinds of token with which a pattern begins. What may stand at fewer places begins with fewer of them: with those from some row on.
pub const PATTERNS: [Kind; 10] = [
    Kind::Underscore,
    Kind::Identifier,
    Kind::Name,
    Kind::Str,
    Kind::Int,
    Kind::Number,
    Kind::Dash,
    Kind::Quoted,
    Kind::OpenRound,
    Kind::OpenSquare,
];

/// Those with which a pattern begins that a variable may hold.
pub fn firm_pattern_beginnings() -> &'static [Kind]
    ensures { result.now ≡ kinds.Identifier ∷ unnamed_patterns }
{
    &PATTERNS[1..]
}

/// Those with which a pattern begins that begins with no identifier.
pub fn unnamed_pattern_beginnings() -> &'static [Kind]
    ensures { result.now ≡ unnamed_patterns }
{
    &PATTERNS[2..]
}
