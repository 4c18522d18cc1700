//! Values and elements that are lent or made.
ghost use Rattle.std.specs.Prelude.{◌≡◌, IfOk, IsTrue};
ghost use Rattle.flow_term.specs.declared.elem.Elem.{out-Elem};
ghost use Rattle.flow_term.specs.declared.value.Value.{out-Value};
ghost use Rattle.eval_code.specs.Needs.{is_elem_pair, is_pair};
ghost use Rattle.eval_code.specs.Senses.{elem_half as elem_part, half_of};
ghost use Rattle.eval_values.specs.Held.{value_of, elem_of};

use crate::pairs::{elem_half, half};
use eval_code::Half;
use flow_term::{Boxed, Elem, Value};
use std::alloc::{AllocError, Global};

/// A value that stands somewhere, or one that was made.
#[derive(Drop)]
pub enum Held<'a> {
    /// It stands there.
    Lent(&'a Value),
    /// It was made.
    Made(Value),
}

impl<'a> Held<'a> {
    /// The value.
    pub fn get(&self) -> &Value
        ensures { result.now ≡ value_of self.now }
    {
        match self {
            Held::Lent(value) => value,
            Held::Made(value) => value,
        }
    }

    /// The value as one of its own; it is copied where it is lent. Fails only for want of memory.
    pub fn own(self, alloc: Global) -> Result<Value, AllocError>
        ensures { IfOk result (λ value. value ≡ value_of self.entry) }
    {
        match self {
            Held::Lent(value) => value.duplicate(alloc),
            Held::Made(value) => Ok(value),
        }
    }

    /// The value in a box; it is copied where it is lent. Fails only for want of memory.
    pub fn boxed(self, alloc: Global) -> Result<Boxed<Value>, AllocError>
        ensures { IfOk result (λ value. value ≡ value_of self.entry) }
    {
        Boxed::new(alloc, self.own(alloc)?)
    }

    /// A part of the value, which is a pair; it is copied unless the pair is lent. Fails only for want of memory.
    pub fn half(self, alloc: Global, which: Half) -> Result<Held<'a>, AllocError>
        requires { IsTrue (is_pair (out-Value (value_of self))) }
        ensures { IfOk result (λ part. value_of part ≡ half_of which (value_of self.entry)) }
    {
        match self {
            Held::Lent(value) => Ok(Held::Lent(half(which, value))),
            Held::Made(value) => Ok(Held::Made(half(which, &value).duplicate(alloc)?)),
        }
    }
}

/// An element that stands somewhere, or one that was made.
#[derive(Drop)]
pub enum HeldElem<'a> {
    /// It stands there.
    Lent(&'a Elem),
    /// It was made.
    Made(Elem),
}

impl<'a> HeldElem<'a> {
    /// The element.
    pub fn get(&self) -> &Elem
        ensures { result.now ≡ elem_of self.now }
    {
        match self {
            HeldElem::Lent(elem) => elem,
            HeldElem::Made(elem) => elem,
        }
    }

    /// The element as one of its own; it is copied where it is lent. Fails only for want of memory.
    pub fn own(self, alloc: Global) -> Result<Elem, AllocError>
        ensures { IfOk result (λ elem. elem ≡ elem_of self.entry) }
    {
        match self {
            HeldElem::Lent(elem) => elem.duplicate(alloc),
            HeldElem::Made(elem) => Ok(elem),
        }
    }

    /// The element in a box; it is copied where it is lent. Fails only for want of memory.
    pub fn boxed(self, alloc: Global) -> Result<Boxed<Elem>, AllocError>
        ensures { IfOk result (λ elem. elem ≡ elem_of self.entry) }
    {
        Boxed::new(alloc, self.own(alloc)?)
    }

    /// A part of the element, which is a pair; it is copied unless the pair is lent. Fails only for want of memory.
    pub fn half(self, alloc: Global, which: Half) -> Result<HeldElem<'a>, AllocError>
        requires { IsTrue (is_elem_pair (out-Elem (elem_of self))) }
        ensures { IfOk result (λ part. elem_of part ≡ elem_part which (elem_of self.entry)) }
    {
        match self {
            HeldElem::Lent(elem) => Ok(HeldElem::Lent(elem_half(which, elem))),
            HeldElem::Made(elem) => Ok(HeldElem::Made(elem_half(which, &elem).duplicate(alloc)?)),
        }
    }
}
