ghost use Rattle.std.specs.Prelude.{◌≡◌, IfOk};

use crate::boxed::Boxed;
use crate::path::Path;
use crate::text::Text;
use std::alloc::{AllocError, Global};

/// An element.
#[derive(Debug, PartialEq, Eq, PartialOrd, Ord, Hash, Drop)]
pub enum Elem {
    /// A resolved name.
    Name(Text),
    /// A string.
    Str(Text),
    /// A position of a tree.
    Pos(Path),
    /// An item of a declared sort, by its name.
    Item(Text),
    /// An integer.
    Int(i64),
    /// A pair of elements.
    Pair(Boxed<Elem>, Boxed<Elem>),
}

impl Elem {
    /// An equal element. Fails only for want of memory.
    pub fn duplicate(&self, alloc: Global) -> Result<Elem, AllocError>
        ensures { IfOk result (λ elem. elem ≡ self.now) }
    {
        Ok(match self {
            Elem::Name(text) => Elem::Name(text.duplicate()?),
            Elem::Str(text) => Elem::Str(text.duplicate()?),
            Elem::Pos(path) => Elem::Pos(path.duplicate()?),
            Elem::Item(text) => Elem::Item(text.duplicate()?),
            Elem::Int(number) => Elem::Int(*number),
            Elem::Pair(left, right) => Elem::Pair(
                Boxed::new(alloc, left.get().duplicate(alloc)?)?,
                Boxed::new(alloc, right.get().duplicate(alloc)?)?,
            ),
        })
    }
}
