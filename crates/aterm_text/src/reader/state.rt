ghost use Rattle.std.specs.Prelude.{◌≡◌, []};
ghost use Rattle.aterm_text.specs.inner.Machine.{nothing, closed_as, ended, finish};
ghost use Rattle.aterm_text.specs.inner.Answers.{state_of, AnswersTerm};
ghost use Rattle.aterm_text.specs.Grammar.{term};

use crate::levels::Levels;
use crate::number::Number;
use crate::open::Opener;
use crate::refusal::{TermFaultKind, TermRefusal};
use flow_term::{Kind, List, Term, Text};
use std::alloc::Global;

/// What stands between quotes before a backslash, and the offset of the backslash.
#[derive(Drop)]
pub struct Escape {
    pub chars: List<u8>,
    pub start: u64,
}

/// What was read last, which says what may come next.
#[derive(Drop)]
pub enum Last {
    /// Nothing or a comma: a term is to begin.
    Start,
    /// An opening bracket.
    Opening,
    /// A part of a symbol, which may go on.
    Symbol(Text),
    /// A symbol, and blanks.
    Name(Text),
    /// A quote, and the bytes that are spelled behind it so far.
    Inside(List<u8>),
    /// A backslash inside quotes.
    Backslash(Escape),
    /// A backslash and one octal digit, whose value it is.
    OneOctal(Escape, u8),
    /// A backslash and two octal digits, and the value of these.
    TwoOctals(Escape, u8),
    /// A text with both its quotes, and perhaps blanks.
    Quoted(Text),
    /// A `-` that begins a number, at this offset.
    Minus(u64),
    /// Digits, which may go on.
    Number(Number),
    /// A term that annotations may follow, and perhaps blanks.
    Body(Kind),
    /// A term with its annotations, and perhaps blanks.
    Whole(Term),
}

impl Last {
    /// What a closing bracket makes of its opening one and the terms between them.
    pub fn closed(opener: Opener, items: List<Term>) -> Last
        ensures { result ≡ closed_as opener items }
    {
        match opener {
            Opener::Call(name) => Last::Body(Kind::Apply(name, items)),
            Opener::Tuple => Last::Body(Kind::Tuple(items)),
            Opener::Items => Last::Body(Kind::Items(items)),
            Opener::Annotations(kind) => Last::Whole(Term { kind, annos: items }),
        }
    }

    /// The term that ends here, where the text ends at this offset.
    fn ended(self, alloc: Global, at: u64) -> Result<Term, TermRefusal>
        ensures { AnswersTerm result (ended self at) }
    {
        let kind = match self {
            Last::Symbol(name) | Last::Name(name) => Kind::Apply(name, List::new(alloc)),
            Last::Quoted(chars) => Kind::Str(chars),
            Last::Number(number) => match number.integer() {
                Some(integer) => Kind::Int(integer),
                None => return Err(TermRefusal::fault(number.start, TermFaultKind::IntRange)),
            },
            Last::Body(kind) => kind,
            Last::Whole(term) => return Ok(term),
            Last::Backslash(escape) | Last::OneOctal(escape, _) | Last::TwoOctals(escape, _) => {
                return Err(TermRefusal::fault(escape.start, TermFaultKind::BadEscape));
            }
            Last::Start | Last::Opening | Last::Inside(_) | Last::Minus(_) => {
                return Err(TermRefusal::fault(at, TermFaultKind::Unexpected));
            }
        };
        Ok(bare_term(alloc, kind))
    }
}

/// A term without annotations.
pub fn bare_term(alloc: Global, kind: Kind) -> Term
    ensures { result ≡ term kind [] }
{
    Term {
        kind,
        annos: List::new(alloc),
    }
}

/// What has been read so far.
#[derive(Drop)]
pub struct Reader {
    pub levels: Levels,
    pub last: Last,
}

impl Reader {
    pub fn new(alloc: Global) -> Reader
        ensures { state_of result ≡ nothing }
    {
        Reader {
            levels: Levels {
                open: List::new(alloc),
                begun: 0,
            },
            last: Last::Start,
        }
    }

    /// The term, where the text ends at this offset.
    pub fn finish(self, alloc: Global, at: u64) -> Result<Term, TermRefusal>
        ensures { AnswersTerm result (finish (state_of self) at) }
    {
        let Reader { levels, last } = self;
        let term = last.ended(alloc, at)?;
        if levels.open.len() != 0 {
            return Err(TermRefusal::fault(at, TermFaultKind::Unexpected));
        }
        Ok(term)
    }
}
