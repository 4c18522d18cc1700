//! Symbols and numbers.
ghost use Rattle.std.specs.Prelude.{◌≡◌, ◌++◌, ◌∷◌, [], reverse};
ghost use Rattle.aterm_text.specs.Bytes.{class_of};
ghost use Rattle.aterm_text.specs.inner.Machine.{in_symbol, after_name, after_minus, in_number, after_number, after_integer};
ghost use Rattle.aterm_text.specs.inner.Answers.{Answers};

use super::state::{Last, Reader};
use super::terms::after_body;
use crate::class::{ByteClass, NextByte};
use crate::levels::Levels;
use crate::number::Number;
use crate::open::Opener;
use crate::refusal::{TermFaultKind, TermRefusal};
use flow_term::{Kind, List, Text};
use std::alloc::Global;

/// A byte behind a part of a symbol.
#[tactic(auto, using(crate::proofs::Classes::byte_ranges))]
pub fn in_symbol(
    alloc: Global,
    levels: Levels,
    mut name: Text,
    next: NextByte,
) -> Result<Reader, TermRefusal>
    requires { next.class ≡ class_of next.byte }
    ensures { Answers result (in_symbol next.class (reverse levels.open) levels.begun next.at name next.byte) }
{
    match next.class {
        ByteClass::Letter | ByteClass::Digit | ByteClass::Minus | ByteClass::Sign => {
            name.push_ascii(next.byte)?;
            Ok(Reader {
                levels,
                last: Last::Symbol(name),
            })
        }
        _ => after_name(alloc, levels, name, next),
    }
}

/// A byte behind a symbol.
pub fn after_name(
    alloc: Global,
    levels: Levels,
    name: Text,
    next: NextByte,
) -> Result<Reader, TermRefusal>
    requires { next.class ≡ class_of next.byte }
    ensures { Answers result (after_name next.class (reverse levels.open) levels.begun next.at name next.byte) }
{
    match next.class {
        ByteClass::Blank => Ok(Reader {
            levels,
            last: Last::Name(name),
        }),
        ByteClass::Parenthesis => levels.descend(alloc, Opener::Call(name)),
        _ => {
            let kind = Kind::Apply(name, List::new(alloc));
            after_body(alloc, levels, kind, next)
        }
    }
}

/// A byte behind the sign of a number.
#[tactic(auto, using(crate::proofs::Classes::byte_ranges))]
pub fn after_minus(levels: Levels, start: u64, next: NextByte) -> Result<Reader, TermRefusal>
    requires { next.class ≡ class_of next.byte }
    ensures { Answers result (after_minus next.class (reverse levels.open) levels.begun next.at start next.byte) }
{
    match next.class {
        ByteClass::Digit => Ok(Reader {
            levels,
            last: Last::Number(Number {
                negative: true,
                magnitude: u64::from(next.byte - b'0'),
                start,
            }),
        }),
        _ => Err(TermRefusal::fault(next.at, TermFaultKind::Unexpected)),
    }
}

/// A byte behind digits.
#[tactic(auto, using(crate::proofs::Classes::byte_ranges))]
pub fn in_number(
    alloc: Global,
    levels: Levels,
    number: Number,
    next: NextByte,
) -> Result<Reader, TermRefusal>
    requires { next.class ≡ class_of next.byte }
    ensures { Answers result (in_number next.class (reverse levels.open) levels.begun next.at number next.byte) }
{
    match next.class {
        ByteClass::Digit => Ok(Reader {
            levels,
            last: Last::Number(number.with_digit(next.byte)),
        }),
        _ => after_number(alloc, levels, number, next),
    }
}

/// A byte behind a number that goes on no further.
fn after_number(
    alloc: Global,
    levels: Levels,
    number: Number,
    next: NextByte,
) -> Result<Reader, TermRefusal>
    requires { next.class ≡ class_of next.byte }
    ensures { Answers result (after_number next.class (reverse levels.open) levels.begun next.at number next.byte) }
{
    match next.byte {
        b'.' | b'e' | b'E' => Err(TermRefusal::fault(number.start, TermFaultKind::Real)),
        b':' => Err(TermRefusal::fault(number.start, TermFaultKind::Blob)),
        _ => match number.integer() {
            None => Err(TermRefusal::fault(number.start, TermFaultKind::IntRange)),
            Some(integer) => after_body(alloc, levels, Kind::Int(integer), next),
        },
    }
}
