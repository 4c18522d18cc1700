ghost use Rattle.std.specs.Prelude.{◌≡◌, slice_get};
ghost use Rattle.std.specs.Option.{option_copied};
ghost use Rattle.flow_term.specs.Trees.{children};

use crate::list::List;
use crate::text::Text;

/// A tree: what it is, and its annotations.
#[cycle(term)]
#[derive(Drop)]
pub struct Term {
    /// What it is, with its children.
    pub kind: Kind,
    /// Its annotations, in the order of the text.
    pub annos: List<Term>,
}

/// What a term is.
#[cycle(term)]
#[derive(Drop)]
pub enum Kind {
    /// An application: its name and its arguments.
    Apply(Text, List<Term>),
    /// A tuple: its parts.
    Tuple(List<Term>),
    /// A list: its items.
    Items(List<Term>),
    /// An integer.
    Int(i64),
    /// A string.
    Str(Text),
}

impl Term {
    /// The arguments, parts or items.
    pub fn children(&self) -> &[Term]
        ensures { result.now ≡ children self.now }
    {
        match &self.kind {
            Kind::Apply(_, args) => args.as_slice(),
            Kind::Tuple(parts) => parts.as_slice(),
            Kind::Items(items) => items.as_slice(),
            Kind::Int(_) | Kind::Str(_) => &[],
        }
    }

    /// The child with this number, if there is one.
    pub fn child(&self, at: u32) -> Option<&Term>
        ensures { option_copied result ≡ slice_get (children self.now) at }
    {
        self.children().get(at as usize)
    }
}
