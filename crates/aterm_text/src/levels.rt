ghost use Rattle.std.specs.Prelude.{◌≡◌, reverse};
ghost use Rattle.aterm_text.specs.inner.Machine.{close, comma, close_after, opened};
ghost use Rattle.aterm_text.specs.inner.Answers.{Answers};

use crate::open::{Open, Opener};
use crate::reader::state::{Last, Reader};
use crate::refusal::{TermFaultKind, TermRefusal};
use flow_term::{List, Term};
use std::alloc::Global;

/// How deep a term may be, where a leaf has depth 1.
pub const DEPTH_LIMIT: usize = 512;

/// How many terms a term may have, those in annotations included.
pub const SIZE_LIMIT: u32 = 1 << 20;

/// What is open at a place in the text, and how many terms have begun before it.
#[derive(Drop)]
pub struct Levels {
    /// The outermost comes first.
    pub open: List<Open>,
    pub begun: u32,
}

impl Levels {
    /// An opening bracket.
    pub fn descend(self, alloc: Global, opener: Opener) -> Result<Reader, TermRefusal>
        ensures { Answers result (opened (reverse self.open) self.begun opener) }
    {
        let Levels { mut open, begun } = self;
        open.push(Open {
            opener,
            items: List::new(alloc),
        })?;
        Ok(Reader {
            levels: Levels { open, begun },
            last: Last::Opening,
        })
    }

    /// A comma behind a term. `Unexpected` where no bracket is open.
    pub fn comma(self, at: u64, term: Term) -> Result<Reader, TermRefusal>
        ensures { Answers result (comma (reverse self.open) self.begun at term) }
    {
        let Levels { mut open, begun } = self;
        let Some(Open { opener, mut items }) = open.pop() else {
            return Err(TermRefusal::fault(at, TermFaultKind::Unexpected));
        };
        items.push(term)?;
        open.push(Open { opener, items })?;
        Ok(Reader {
            levels: Levels { open, begun },
            last: Last::Start,
        })
    }

    /// A closing bracket behind a term.
    pub fn close_after(self, at: u64, term: Term, byte: u8) -> Result<Reader, TermRefusal>
        ensures { Answers result (close_after (reverse self.open) self.begun at term byte) }
    {
        let Levels { mut open, begun } = self;
        let Some(Open { opener, mut items }) = open.pop() else {
            return Err(TermRefusal::fault(at, TermFaultKind::Unexpected));
        };
        items.push(term)?;
        open.push(Open { opener, items })?;
        Levels { open, begun }.close(at, byte)
    }

    /// A closing bracket. `Unexpected` where the byte isn't that of the innermost open one.
    pub fn close(self, at: u64, byte: u8) -> Result<Reader, TermRefusal>
        ensures { Answers result (close (reverse self.open) self.begun at byte) }
    {
        let Levels { mut open, begun } = self;
        let Some(Open { opener, items }) = open.pop() else {
            return Err(TermRefusal::fault(at, TermFaultKind::Unexpected));
        };
        if byte != opener.closing_byte() {
            return Err(TermRefusal::fault(at, TermFaultKind::Unexpected));
        }
        Ok(Reader {
            levels: Levels { open, begun },
            last: Last::closed(opener, items),
        })
    }
}
