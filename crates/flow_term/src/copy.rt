ghost use Rattle.std.specs.Prelude.{◌≡◌, IfOk};

use crate::list::List;
use crate::term::{Kind, Term};
use std::alloc::{AllocError, Global};

impl Term {
    /// An equal term, as `copy_term` makes it. Fails only for want of memory.
    pub fn duplicate(&self, alloc: Global) -> Result<Term, AllocError>
        ensures { IfOk result (λ term. term ≡ self.now) }
    {
        copy_term(alloc, self)
    }
}

impl Kind {
    /// An equal one. Fails only for want of memory.
    pub fn duplicate(&self, alloc: Global) -> Result<Kind, AllocError>
        ensures { IfOk result (λ kind. kind ≡ self.now) }
    {
        copy_kind(alloc, self)
    }
}

/// An equal term. Fails only for want of memory.
#[cycle(copy_term)]
pub fn copy_term(alloc: Global, term: &Term) -> Result<Term, AllocError>
    ensures { IfOk result (λ copy. copy ≡ term.now) }
{
    let kind = copy_kind(alloc, &term.kind)?;
    let annos = copy_terms(alloc, term.annos.as_slice())?;
    Ok(Term { kind, annos })
}

#[cycle(copy_term)]
fn copy_kind(alloc: Global, kind: &Kind) -> Result<Kind, AllocError>
    ensures { IfOk result (λ copy. copy ≡ kind.now) }
{
    match kind {
        Kind::Apply(name, args) => Ok(Kind::Apply(
            name.duplicate()?,
            copy_terms(alloc, args.as_slice())?,
        )),
        Kind::Tuple(parts) => Ok(Kind::Tuple(copy_terms(alloc, parts.as_slice())?)),
        Kind::Items(items) => Ok(Kind::Items(copy_terms(alloc, items.as_slice())?)),
        Kind::Int(number) => Ok(Kind::Int(*number)),
        Kind::Str(text) => Ok(Kind::Str(text.duplicate()?)),
    }
}

#[cycle(copy_term)]
fn copy_terms(alloc: Global, terms: &[Term]) -> Result<List<Term>, AllocError>
    ensures { IfOk result (λ copy. copy ≡ terms.now) }
{
    let mut copy = List::new(alloc);
    for term in terms {
        copy.push(copy_term(alloc, term)?)?;
    }
    Ok(copy)
}
