ghost use Rattle.std.specs.Prelude.{◌≡◌, []};
ghost use Rattle.aterm_text.specs.inner.Open.{closing_byte_of};

use flow_term::{Kind, List, Term, Text};

/// What an open bracket belongs to.
#[derive(Drop)]
pub enum Opener {
    /// The arguments of an application of this name.
    Call(Text),
    /// The parts of a tuple.
    Tuple,
    /// The items of a list.
    Items,
    /// The annotations of a term of this kind.
    Annotations(Kind),
}

/// A bracket whose closing bracket hasn't come yet, and the terms behind it so far.
#[derive(Drop)]
pub struct Open {
    pub opener: Opener,
    pub items: List<Term>,
}

impl Opener {
    /// The byte that closes it.
    pub fn closing_byte(&self) -> u8
        ensures { result ≡ closing_byte_of self.now }
    {
        match self {
            Opener::Call(_) | Opener::Tuple => b')',
            Opener::Items => b']',
            Opener::Annotations(_) => b'}',
        }
    }
}
