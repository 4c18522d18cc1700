//! The names of faults, as lines of refusal have them.
ghost use Rattle.std.specs.Prelude.{◌≡◌};
ghost use Rattle.flow_cli.specs.Accepted.{lexical_name, sort_name, syntax_name, term_name};
ghost use Rattle.flow_parse.specs.Faults.{cause_of};

use aterm_text::TermFaultKind;
use flow_parse::ParseFaultKind;
use flow_syntax::{LexFaultKind, SpecFaultKind};

/// The name of a fault of a specification's tokens.
pub fn lexical_name(kind: LexFaultKind) -> &'static str
    ensures { result.now ≡ lexical_name kind }
{
    match kind {
        LexFaultKind::NotUtf8 => "NotUtf8",
        LexFaultKind::BadCharacter => "BadCharacter",
        LexFaultKind::BadEscape => "BadEscape",
        LexFaultKind::Unclosed => "Unclosed",
        LexFaultKind::IntRange => "IntRange",
    }
}

/// The name of a fault of a specification's syntax.
pub fn syntax_name(kind: ParseFaultKind) -> &'static str
    ensures { result.now ≡ syntax_name (cause_of kind) }
{
    match kind {
        ParseFaultKind::Unexpected => "syntax fault",
        ParseFaultKind::TooDeep => "too deep",
    }
}

/// The name of a fault of what a specification says.
pub fn sort_name(kind: SpecFaultKind) -> &'static str
    ensures { result.now ≡ sort_name kind }
{
    match kind {
        SpecFaultKind::Unknown => "Unknown",
        SpecFaultKind::Duplicate => "Duplicate",
        SpecFaultKind::Arity => "Arity",
        SpecFaultKind::Sort => "Sort",
        SpecFaultKind::Unbound => "Unbound",
        SpecFaultKind::MixedDirection => "MixedDirection",
        SpecFaultKind::WrongEnd => "WrongEnd",
        SpecFaultKind::MixedItem => "MixedItem",
        SpecFaultKind::Nested => "Nested",
        SpecFaultKind::Depth => "Depth",
    }
}

/// The name of a fault of a tree's text.
pub fn term_name(kind: TermFaultKind) -> &'static str
    ensures { result.now ≡ term_name kind }
{
    match kind {
        TermFaultKind::NotUtf8 => "NotUtf8",
        TermFaultKind::Unexpected => "Unexpected",
        TermFaultKind::Shared => "Shared",
        TermFaultKind::Placeholder => "Placeholder",
        TermFaultKind::Real => "Real",
        TermFaultKind::Blob => "Blob",
        TermFaultKind::BadEscape => "BadEscape",
        TermFaultKind::IntRange => "IntRange",
        TermFaultKind::TooDeep => "TooDeep",
        TermFaultKind::TooMany => "TooMany",
    }
}
