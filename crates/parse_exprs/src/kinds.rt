//! The kinds of token by which the parser of expressions chooses.
ghost use Rattle.std.specs.Prelude.{◌≡◌};
ghost use Rattle.spec_grammar.specs.Choice.{level_beginnings, negations, opposites, primaries};
ghost use Rattle.spec_grammar.specs.Expressions.{operators_of};

use spec_grammar::{BinaryLevel, Kind};

/// The kinds of token with which an expression begins. What binds more tightly begins with fewer of them: with those from some row on.
pub const EXPR: [Kind; 18] = [
    Kind::If,
    Kind::Bind,
    Kind::Not,
    Kind::Dash,
    Kind::Number,
    Kind::Quoted,
    Kind::True,
    Kind::False,
    Kind::Bottom,
    Kind::Top,
    Kind::Unreached,
    Kind::MakeFlat,
    Kind::Fst,
    Kind::Snd,
    Kind::Identifier,
    Kind::OpenRound,
    Kind::OpenBrace,
    Kind::OpenSquare,
];

/// Those with which an expression with `not` begins.
pub fn negation_beginnings() -> &'static [Kind]
    ensures { result.now ≡ negations }
{
    &EXPR[2..]
}

/// Those with which a signed value begins.
pub fn opposite_beginnings() -> &'static [Kind]
    ensures { result.now ≡ opposites }
{
    &EXPR[3..]
}

/// Those with which a value without a sign begins.
pub fn primary_beginnings() -> &'static [Kind]
    ensures { result.now ≡ primaries }
{
    &EXPR[4..]
}

/// The operators of comparisons.
pub const COMPARISONS: [Kind; 5] = [
    Kind::Equal,
    Kind::Unequal,
    Kind::Below,
    Kind::AtMost,
    Kind::In,
];

/// The kinds of a literal.
pub const LITERALS: [Kind; 7] = [
    Kind::Number,
    Kind::Quoted,
    Kind::True,
    Kind::False,
    Kind::Bottom,
    Kind::Top,
    Kind::Unreached,
];

/// The words that are applied to an expression.
pub const APPLIED: [Kind; 3] = [Kind::MakeFlat, Kind::Fst, Kind::Snd];

/// The words for the node of a read.
pub const SIDES: [Kind; 3] = [Kind::Prev, Kind::Next, Kind::This];

/// The kinds of token with which an operand of a level, and so the level, begins.
pub fn level_beginnings(level: BinaryLevel) -> &'static [Kind]
    ensures { result.now ≡ level_beginnings level }
{
    match level {
        BinaryLevel::Disjunction => negation_beginnings(),
        BinaryLevel::Conjunction => negation_beginnings(),
        BinaryLevel::SetOperation => opposite_beginnings(),
        BinaryLevel::Sum => opposite_beginnings(),
        BinaryLevel::Product => opposite_beginnings(),
    }
}

/// The operators of a level.
pub fn operators_of(level: BinaryLevel) -> &'static [Kind]
    ensures { result.now ≡ operators_of level }
{
    match level {
        BinaryLevel::Disjunction => &[Kind::Or],
        BinaryLevel::Conjunction => &[Kind::And],
        BinaryLevel::SetOperation => &[Kind::Join, Kind::Union, Kind::Inter, Kind::Minus],
        BinaryLevel::Sum => &[Kind::Plus, Kind::Dash],
        BinaryLevel::Product => &[Kind::Star],
    }
}
