//! The reader: one byte after the other, with what is open on a stack of its own.
ghost use Rattle.std.specs.Prelude.{◌≡◌, ℕ, true, Err, IfOk, IsUtf8, Ok};
ghost use Rattle.aterm_text.specs.inner.Answers.{Answers, AnswersTerm, IsReady, IfFault, UnlessNoMemory, state_of, fault_of};
ghost use Rattle.aterm_text.specs.Faults.{TermFaulty};
ghost use Rattle.aterm_text.specs.Grammar.{TermText};
ghost use Rattle.aterm_text.specs.inner.Machine.{reading, step};

mod atoms;
mod quotes;
pub mod state;
mod terms;

use crate::class::NextByte;
use crate::refusal::{TermFaultKind, TermRefusal};
use flow_term::Term;
use state::{Last, Reader};
use std::alloc::Global;
use std::str;

/// The term that the bytes are a text of, where its depth is at most 512 and it has at most 2^20 terms.
///
/// Otherwise `Fault` with the first fault of the text from the left, its kind and its offset in bytes.
pub fn read(alloc: Global, bytes: &[u8]) -> Result<Term, TermRefusal>
    ensures found { IfOk result (λ t. TermText bytes.now t) }
    ensures only { (t : Term) → TermText bytes.now t → UnlessNoMemory result (result ≡ Ok t) }
    ensures fault { IfFault result (λ offset kind. TermFaulty bytes.now offset kind) }
    ensures first { (offset : ℕ) (kind : TermFaultKind) → TermFaulty bytes.now offset kind → UnlessNoMemory result (result ≡ Err (fault_of offset kind)) }
{
    match str::from_utf8(bytes) {
        Ok(_) => read_all(alloc, bytes),
        Err(error) => Err(TermRefusal::fault(error.valid_up_to() as u64, TermFaultKind::NotUtf8)),
    }
}

/// The same for a text in UTF-8, one byte after the other.
fn read_all(alloc: Global, bytes: &[u8]) -> Result<Term, TermRefusal>
    requires { IsUtf8 bytes.now }
    ensures { AnswersTerm result (reading bytes.now) }
{
    let mut reader = Reader::new(alloc);
    for (at, byte) in bytes.iter().enumerate() {
        reader = reader.step(alloc, at as u64, *byte)?;
    }
    reader.finish(alloc, bytes.len() as u64)
}

impl Reader {
    /// Reads one byte, at its offset.
    fn step(self, alloc: Global, at: u64, byte: u8) -> Result<Reader, TermRefusal>
        requires { IsReady self.last byte }
        ensures { Answers result (step true (state_of self) at byte) }
    {
        let Reader { levels, last } = self;
        let next = NextByte::new(at, byte);
        match last {
            Last::Start => terms::at_start(alloc, levels, next),
            Last::Opening => terms::at_opening(alloc, levels, next),
            Last::Symbol(name) => atoms::in_symbol(alloc, levels, name, next),
            Last::Name(name) => atoms::after_name(alloc, levels, name, next),
            Last::Inside(chars) => quotes::in_quotes(levels, chars, at, byte),
            Last::Backslash(escape) => quotes::in_escape(levels, escape, byte),
            Last::OneOctal(escape, value) => quotes::in_one_octal(levels, escape, value, byte),
            Last::TwoOctals(escape, value) => quotes::in_two_octals(levels, escape, value, byte),
            Last::Quoted(chars) => quotes::after_quotes(alloc, levels, chars, next),
            Last::Minus(start) => atoms::after_minus(levels, start, next),
            Last::Number(number) => atoms::in_number(alloc, levels, number, next),
            Last::Body(kind) => terms::after_body(alloc, levels, kind, next),
            Last::Whole(term) => terms::after(levels, term, next),
        }
    }
}
