//! Bytes between terms, and the first byte of a term.
ghost use Rattle.std.specs.Prelude.{◌≡◌, ◌+◌, reverse, true};
ghost use Rattle.aterm_text.specs.Bytes.{class_of};
ghost use Rattle.aterm_text.specs.inner.Machine.{begin, begin_within, after, after_body, at_opening, at_start};
ghost use Rattle.aterm_text.specs.inner.Answers.{Answers};

use super::state::{Last, Reader, bare_term};
use crate::class::{ByteClass, NextByte};
use crate::levels::{DEPTH_LIMIT, Levels, SIZE_LIMIT};
use crate::number::Number;
use crate::open::Opener;
use crate::refusal::{TermFaultKind, TermRefusal};
use flow_term::{Kind, List, Term, Text};
use std::alloc::Global;

/// A byte where a term is to begin, behind nothing or a comma.
pub fn at_start(alloc: Global, levels: Levels, next: NextByte) -> Result<Reader, TermRefusal>
    requires { next.class ≡ class_of next.byte }
    ensures { Answers result (at_start true next.class (reverse levels.open) levels.begun next.at next.byte) }
{
    match next.class {
        ByteClass::Blank => Ok(Reader {
            levels,
            last: Last::Start,
        }),
        _ => begin(alloc, levels, next),
    }
}

/// A byte behind an opening bracket.
pub fn at_opening(alloc: Global, levels: Levels, next: NextByte) -> Result<Reader, TermRefusal>
    requires { next.class ≡ class_of next.byte }
    ensures { Answers result (at_opening true next.class (reverse levels.open) levels.begun next.at next.byte) }
{
    match next.class {
        ByteClass::Blank => Ok(Reader {
            levels,
            last: Last::Opening,
        }),
        ByteClass::Closing => levels.close(next.at, next.byte),
        _ => begin(alloc, levels, next),
    }
}

/// A byte with which a term is to begin.
fn begin(alloc: Global, levels: Levels, next: NextByte) -> Result<Reader, TermRefusal>
    requires { next.class ≡ class_of next.byte }
    ensures { Answers result (begin true next.class (reverse levels.open) levels.begun next.at next.byte) }
{
    if !next.class.begins_term() {
        return Err(TermRefusal::fault(next.at, next.class.misplaced()));
    }
    if levels.open.len() >= DEPTH_LIMIT {
        return Err(TermRefusal::fault(next.at, TermFaultKind::TooDeep));
    }
    if levels.begun >= SIZE_LIMIT {
        return Err(TermRefusal::fault(next.at, TermFaultKind::TooMany));
    }
    let Levels { open, begun } = levels;
    let counted = Levels {
        open,
        begun: begun + 1,
    };
    begin_within(alloc, counted, next)
}

/// The first byte of a term, which is counted.
#[tactic(auto, using(crate::proofs::Classes::byte_ranges))]
fn begin_within(alloc: Global, levels: Levels, next: NextByte) -> Result<Reader, TermRefusal>
    requires { next.class ≡ class_of next.byte }
    ensures { Answers result (begin_within next.class (reverse levels.open) levels.begun next.at next.byte) }
{
    let last = match next.class {
        ByteClass::Letter => {
            let mut name = Text::new(alloc);
            name.push_ascii(next.byte)?;
            Last::Symbol(name)
        }
        ByteClass::Digit => Last::Number(Number {
            negative: false,
            magnitude: u64::from(next.byte - b'0'),
            start: next.at,
        }),
        ByteClass::Minus => Last::Minus(next.at),
        ByteClass::Quote => Last::Inside(List::new(alloc)),
        ByteClass::Parenthesis => return levels.descend(alloc, Opener::Tuple),
        ByteClass::Bracket => return levels.descend(alloc, Opener::Items),
        _ => return Err(TermRefusal::fault(next.at, next.class.misplaced())),
    };
    Ok(Reader { levels, last })
}

/// A byte behind a term that annotations may follow.
pub fn after_body(
    alloc: Global,
    levels: Levels,
    kind: Kind,
    next: NextByte,
) -> Result<Reader, TermRefusal>
    requires { next.class ≡ class_of next.byte }
    ensures { Answers result (after_body next.class (reverse levels.open) levels.begun next.at kind next.byte) }
{
    match next.class {
        ByteClass::Blank => Ok(Reader {
            levels,
            last: Last::Body(kind),
        }),
        ByteClass::Brace => levels.descend(alloc, Opener::Annotations(kind)),
        _ => after(levels, bare_term(alloc, kind), next),
    }
}

/// A byte behind a whole term.
pub fn after(levels: Levels, term: Term, next: NextByte) -> Result<Reader, TermRefusal>
    requires { next.class ≡ class_of next.byte }
    ensures { Answers result (after next.class (reverse levels.open) levels.begun next.at term next.byte) }
{
    match next.class {
        ByteClass::Blank => Ok(Reader {
            levels,
            last: Last::Whole(term),
        }),
        ByteClass::Comma => levels.comma(next.at, term),
        ByteClass::Closing => levels.close_after(next.at, term, next.byte),
        _ => Err(TermRefusal::fault(next.at, TermFaultKind::Unexpected)),
    }
}
